ghost use Rattle.std.specs.Prelude.{◌≡◌, Some};
ghost use Rattle.plan_report.specs.Words.{mark_word, standing_words};

use keypad::key::Mark;
use std::fmt;

// What a plan answers of its rest: whether it is satisfied, settled and goes on, and its timing.
#[derive(Clone, Copy)]
pub struct Standing {
    pub ended: bool,
    pub settled: bool,
    pub going: bool,
    pub mark: Mark,
}

// The word for a mark. It is this report's alone, so a mark has no Display of its own.
fn mark_name(mark: Mark) -> &'static str
    ensures { result.now ≡ mark_word mark }
{
    match mark {
        Mark::Unmarked => "none",
        Mark::Short => "S",
        Mark::Long => "L",
    }
}

// How a plan stands, as `, satisfied, goes on, timing S`.
impl fmt::Display for Standing {
    ghost output = { λ standing. Some (standing_words standing) };

    #[tactic(auto, unfolding(crate::specs::Words::standing_words))]
    fn fmt<W: fmt::Write>(&self, f: &mut fmt::Formatter<W>) -> fmt::Result {
        let ended = if self.ended { ", satisfied" } else { "" };
        let settled = if self.settled { ", settled" } else { "" };
        let going = if self.going { ", goes on" } else { "" };
        let mark = mark_name(self.mark);
        write!(f, "{ended}{settled}{going}, timing {mark}")
    }
}
