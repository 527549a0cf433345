ghost use Rattle.std.specs.Prelude.{◌≤◌, true, false};
ghost use Rattle.key_record.specs.Bounds.{Lawful};

use keypad::timers::Timers;

// How keys are matched: the base procedure goes on as long as an entry can, shortest match ends as soon as
// one does.
#[derive(Clone, Copy, PartialEq, Eq, Debug)]
pub enum Procedure {
    Base,
    Shortest,
}

// What becomes of a key that fits nowhere: it is kept for the next arming, or dropped.
#[derive(Clone, Copy, PartialEq, Eq, Debug)]
pub enum Disposition {
    Keep,
    Drop,
}

// What a line is armed with.
#[derive(Clone, Copy, PartialEq, Eq, Debug)]
pub struct Settings {
    pub procedure: Procedure,
    pub disposition: Disposition,
    pub timers: Timers,
}

impl Settings {
    // Whether T is at most 99 and S, L and Z are from 1 to 99.
    pub fn lawful(&self) -> bool
        ensures { elim result [
          | true ↦ Lawful self.now.timers
          | false ↦
              (Lawful self.now.timers → ⊥)
        ] }
    {
        self.timers.start <= 99
            && counts(self.timers.short)
            && counts(self.timers.long)
            && counts(self.timers.hold)
    }
}

// Whether a number is from 1 to 99.
fn counts(number: u8) -> bool
    ensures { elim result [ true ↦ (1 ≤ number) × (number ≤ 99) | false ↦ (1 ≤ number → number ≤ 99 → ⊥) ] }
{
    (1..=99).contains(&number)
}
