//! Causes, timers and numbers in words.
ghost use Rattle.std.specs.Prelude.{◌≡◌, Some, IfOk, string_bytes};
ghost use Rattle.map_report.specs.Phrases.{phrase, counted, summary};

use digit_map::fault::Cause;
use keypad::timers::Timers;
use std::alloc::{AllocError, Global};
use std::fmt;

// What a cause says in plain words. A Display is no plainer: this text needs no memory and no writer.
#[tactic(auto, unfolding(crate::specs::Phrases::phrase))]
pub fn cause_words(cause: Cause) -> &'static str
    ensures { result.now ≡ phrase cause }
{
    match cause {
        Cause::Length => "the text is empty or longer than 2,048 bytes",
        Cause::Head => "a head field is misplaced, repeated, ill-formed or 0 where it may not be 0",
        Cause::Byte => "a byte, the end of the text or a run of blanks is not allowed there",
        Cause::Set =>
            "a set of keys is empty, is not closed, has a falling range or another byte in it",
        Cause::Affix => "a dot is not behind a position, or a Z is not before one",
        Cause::Keyless => "an alternative needs no key",
        Cause::Excess => "there is a position past the 255th or an alternative past the 64th",
    }
}

// A number with its noun, as `1 position` and `2 positions`.
#[derive(Clone, Copy)]
struct Counted<'a> {
    count: usize,
    noun: &'a str,
}

impl fmt::Display for Counted<'_> {
    ghost output = { λ c. Some (counted c.count c.noun.now) };

    #[tactic(auto, unfolding(crate::specs::Phrases::counted))]
    fn fmt<W: fmt::Write>(&self, f: &mut fmt::Formatter<W>) -> fmt::Result {
        let Counted { count, noun } = *self;
        let ending = if count == 1 { "" } else { "s" };
        write!(f, "{count} {noun}{ending}")
    }
}

// The line that tells what a map has.
pub fn admitted_line(
    heap: Global,
    timers: Timers,
    alternatives: usize,
    positions: usize,
) -> Result<String, AllocError>
    ensures { IfOk result (λ s. string_bytes s ≡ summary timers alternatives positions) }
{
    let Timers {
        start,
        short,
        long,
        hold,
    } = timers;
    let choices = Counted {
        count: alternatives,
        noun: "alternative",
    };
    let steps = Counted {
        count: positions,
        noun: "position",
    };
    format!(in heap; "admitted: T {start} S {short} L {long} Z {hold}, {choices}, {steps}\n")
}
