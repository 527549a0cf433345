//! What one key does to a plan, and which timer runs.
ghost use Rattle.key_record.specs.Keying.{AnyLong, Chosen, Extra, Falls, Judged, Missed, Awaits};
ghost use Rattle.keypad.specs.Answers.{Tells};
ghost use Rattle.keypad.specs.Sets.{Same, Remains};
ghost use Rattle.std.specs.Option.{option_to_list};

use key_record::ending::Method;
use key_record::settings::Procedure;
use key_record::timer::Timer;
use keypad::key::{Mark, Symbol};
use keypad::plan::Plan;
use keypad::timers::Timers;

// The symbol that a key would be pressed as: its long one if it is long and that is open, else its plain one.
// The key and whether it is long stay two parameters, here and in press_key and extra: a struct of them would be
// neither the event nor the symbol.
pub fn chosen<P: Plan>(plan: &P, long: bool, key: u8) -> Option<Symbol>
    ensures { Chosen (P.Plan.rest plan.now) long key result }
{
    if long && plan.open(Symbol::Long(key)) {
        Some(Symbol::Long(key))
    } else {
        plan.open(Symbol::Plain(key)).then_some(Symbol::Plain(key))
    }
}

// Presses a key as that symbol, if there is one. It tries a press right away, since a refused one changes
// nothing.
pub fn press_key<P: Plan>(plan: &mut P, long: bool, key: u8) -> Option<Symbol>
    ensures chosen { Chosen (P.Plan.rest plan.old) long key result }
    ensures whole { Same (P.Plan.whole plan.new) (P.Plan.whole plan.old) }
    ensures rest { Same (P.Plan.rest plan.new)
        (Remains (P.Plan.rest plan.old) (option_to_list result)) }
{
    if long && plan.press(Symbol::Long(key)) {
        return Some(Symbol::Long(key));
    }
    plan.press(Symbol::Plain(key)).then_some(Symbol::Plain(key))
}

// Whether some long symbol is open.
fn some_long<P: Plan>(plan: &P) -> bool
    ensures { Tells (AnyLong (P.Plan.rest plan.now)) result }
{
    (0..16u8).any(|key| plan.open(Symbol::Long(key)))
}

// A key that fits nowhere, as it is reported.
pub fn extra<P: Plan>(plan: &P, long: bool, key: u8) -> Symbol
    ensures { Extra (P.Plan.rest plan.now) long key result }
{
    if long && some_long(plan) {
        Symbol::Long(key)
    } else {
        Symbol::Plain(key)
    }
}

// Whether a press ended the entry, and how.
pub fn judged<P: Plan>(plan: &P, procedure: Procedure) -> Option<Method>
    ensures { Judged procedure (P.Plan.rest plan.now) result }
{
    match procedure {
        Procedure::Base => (plan.satisfied() && !plan.goes_on()).then_some(Method::Unambiguous),
        Procedure::Shortest => plan.settled().then_some(Method::Full),
    }
}

// Full if the plan is satisfied, else partial.
pub fn fallen<P: Plan>(plan: &P) -> Method
    ensures { Falls (P.Plan.rest plan.now) result }
{
    if plan.satisfied() {
        Method::Full
    } else {
        Method::Partial
    }
}

// How a key that fits nowhere ends the entry.
pub fn missed<P: Plan>(plan: &P, procedure: Procedure) -> Method
    ensures { Missed procedure (P.Plan.rest plan.now) result }
{
    match procedure {
        Procedure::Base => fallen(plan),
        Procedure::Shortest => Method::Partial,
    }
}

// The timer of an open line with its seconds, or none where it waits without limit.
pub fn awaited<P: Plan>(plan: &P, timers: Timers, first: bool) -> Option<(Timer, u8)>
    ensures { Awaits timers (P.Plan.rest plan.now) first result }
{
    if first {
        return (timers.start != 0).then_some((Timer::Start, timers.start));
    }
    Some(match plan.timing() {
        Mark::Long => (Timer::Long, timers.long),
        Mark::Short => (Timer::Short, timers.short),
        Mark::Unmarked if plan.satisfied() => (Timer::Short, timers.short),
        Mark::Unmarked => (Timer::Long, timers.long),
    })
}
