//! What the keys of an open entry do.
ghost use Rattle.std.specs.Prelude.{◌≡◌, ◌<◌, ◌≤◌, true, false, ◌≢◌};
ghost use Rattle.key_record.specs.Keying.{is_long};
ghost use Rattle.key_record.specs.Bounds.{Lawful};
ghost use Rattle.key_record.specs.Rules.{Fits};
ghost use Rattle.line.specs.Lines.{state_of};
ghost use Rattle.line.specs.Does.{Does, moved};
ghost use Rattle.line.specs.Processed.{Processed, keeps, finished};

use crate::line::Line;
use key_record::answer::{Answer, Progress};
use key_record::call::Call;
use key_record::ending::{Ending, Phase, Trigger};
use key_record::refusal::Refusal;
use key_record::settings::{Disposition, Settings};
use key_record::timer::Timer;
use keypad::key::{KeyEvent, Symbol};
use keypad::plan::Plan;
use line_parts::ahead::Ahead;
use line_parts::dial::Dial;
use line_parts::keying::{chosen, extra, fallen, judged, missed, press_key};

impl<P: Plan> Line<P> {
    // Whether a key was held for more than Z.
    fn is_held_long(&self, event: KeyEvent) -> bool
        ensures { result ≡ is_long self.now.settings.timers event }
    {
        event.tenths > u16::from(self.settings.timers.hold)
    }

    // Feeds one key to the plan: the symbol that it is pressed as joins the dial string. Answers how the
    // entry ended, if it did.
    fn process(&mut self, event: KeyEvent) -> Option<Ending>
        requires { Fits (state_of self.old) (P.Plan.rest self.old.plan) event }
        ensures { Processed P.Plan.whole P.Plan.rest self.old event result
            self.new }
    {
        let long = self.is_held_long(event);
        match press_key(&mut self.plan, long, event.key) {
            Some(symbol) => {
                self.dial.push(symbol);
                judged(&self.plan, self.settings.procedure).map(|method| Ending {
                    method,
                    trigger: Trigger::Press,
                })
            }
            None => {
                let symbol = extra(&self.plan, long, event.key);
                Some(Ending {
                    method: missed(&self.plan, self.settings.procedure),
                    trigger: Trigger::Extra(symbol),
                })
            }
        }
    }

    // Whether the key that ended an entry is kept for the next arming.
    fn keeps_last(&self, ending: Ending) -> bool
        ensures { result ≡ keeps self.now.settings.disposition ending.trigger }
    {
        matches!(
            (ending.trigger, self.settings.disposition),
            (Trigger::Extra(_), Disposition::Keep)
        )
    }

    // The entry is over, and the line has brought one report more.
    fn finish(&mut self, ending: Ending)
        requires { self.old.count < 999999 }
        ensures state { state_of self.new ≡ finished (state_of self.old) ending }
        ensures plan { self.new.plan ≡ self.old.plan }
    {
        self.phase = Phase::Done(ending);
        self.count += 1;
    }

    // Whether the key is pressed as a symbol that would take the dial string past 64 characters. The plan is
    // asked only where the dial string is nearly full.
    fn overflows(&self, event: KeyEvent) -> bool
        ensures { elim result [
          | true ↦ (Fits (state_of self.now) (P.Plan.rest self.now.plan) event → ⊥)
          | false ↦ Fits (state_of self.now) (P.Plan.rest self.now.plan) event
        ] }
    {
        if self.dial.takes(Symbol::Long(event.key)) {
            return false;
        }
        chosen(&self.plan, self.is_held_long(event), event.key).is_some_and(|symbol| !self
            .dial
            .takes(symbol))
    }

    // A key of an open line.
    pub(super) fn press(&mut self, event: KeyEvent) -> Result<Progress, Refusal>
        requires { self.old.phase ≡ Phase.Open }
        ensures { Does P.Plan.whole P.Plan.rest self.old (Call.Key event) (moved result)
            self.new }
    {
        if event.key > 15 {
            return Err(Refusal::Key);
        }
        if self.overflows(event) {
            return Err(Refusal::Dial);
        }
        match self.process(event) {
            Some(ending) => {
                self.finish(ending);
                if self.keeps_last(ending) {
                    self.ahead.push(event);
                }
                Ok(Progress::Done)
            }
            None => Ok(Progress::Wait(self.timer())),
        }
    }

    // A key of a line that is not open.
    pub(super) fn queue(&mut self, event: KeyEvent) -> Result<Progress, Refusal>
        requires { self.old.phase ≢ Phase.Open }
        ensures { Does P.Plan.whole P.Plan.rest self.old (Call.Key event) (moved result)
            self.new }
    {
        if event.key > 15 {
            return Err(Refusal::Key);
        }
        if self.ahead.len() >= 32 {
            return Err(Refusal::Ahead);
        }
        self.ahead.push(event);
        Ok(Progress::Ahead(self.ahead.len()))
    }

    // A timer of an open line.
    pub(super) fn lapse(&mut self, timer: Timer) -> Result<Progress, Refusal>
        requires { self.old.phase ≡ Phase.Open }
        ensures { Does P.Plan.whole P.Plan.rest self.old (Call.Expire timer) (moved result)
            self.new }
    {
        let Some((running, _)) = self.timer() else {
            return Err(Refusal::NoTimer);
        };
        if running != timer {
            return Err(Refusal::OtherTimer);
        }
        let method = fallen(&self.plan);
        self.finish(Ending {
            method,
            trigger: Trigger::Expiry(timer),
        });
        Ok(Progress::Done)
    }

    // An arming of an idle line.
    pub(super) fn enter(&mut self, settings: Settings) -> Result<Progress, Refusal>
        requires { self.old.phase ≡ Phase.Idle }
        ensures { Does P.Plan.whole P.Plan.rest self.old (Call.Arm settings) (moved result)
            self.new }
    {
        if !settings.lawful() {
            return Err(Refusal::Setting);
        }
        // A name of its own: tested in the `if`, the bound would be part of the name of the case that is proved.
        let spent = self.count >= 999_999;
        if spent {
            return Err(Refusal::Reports);
        }
        Ok(self.begin(settings))
    }

    // Begins an entry and feeds it the keys ahead, the oldest first, as long as it is not over. The line
    // counts as open once they are all taken.
    fn begin(&mut self, settings: Settings) -> Progress
        requires phase { self.old.phase ≡ Phase.Idle }
        requires lawful { Lawful settings.timers }
        requires few { self.old.count < 999999 }
        ensures { Does P.Plan.whole P.Plan.rest self.old (Call.Arm settings)
            (Ok (Answer.Moved result)) self.new }
    {
        self.settings = settings;
        self.plan.rewind();
        self.dial = Dial::new();
        let ahead = self.ahead;
        for (fed, event) in ahead.events().iter().enumerate() {
            if let Some(ending) = self.process(*event) {
                let kept = self.keeps_last(ending);
                self.ahead.discard(if kept { fed } else { fed + 1 });
                self.finish(ending);
                return Progress::Done;
            }
        }
        self.ahead = Ahead::new();
        self.phase = Phase::Open;
        Progress::Wait(self.timer())
    }
}
