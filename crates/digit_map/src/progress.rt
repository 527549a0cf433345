ghost use Rattle.std.specs.Prelude.{◌≡◌};
ghost use Rattle.digit_map.specs.Acts.{fresh, onward, at_dot, at_halt};

use crate::fault::{Cause, Fault};
use crate::node::Position;
use keypad::key::Mark;

// The last thing read of an alternative; a Z with its offset.
#[derive(Clone, Copy)]
pub enum Last {
    Nothing,
    Mark,
    Position,
    Dot,
    Hold(usize),
}

// How far an alternative is read: the mark in force, whether one stands last (but for a Z), whether a
// position without a dot was followed by something else than a dot, the offset of its first byte, and the
// last thing read.
#[derive(Clone, Copy)]
pub struct Progress {
    pub mark: Mark,
    pub marked: bool,
    pub needs: bool,
    pub first: usize,
    pub last: Last,
}

// The alternative being read: its number, and whether round brackets are open around it.
#[derive(Clone, Copy)]
pub struct Frame {
    pub bracketed: bool,
    pub number: u8,
}

// What a sign that may stand there does to an alternative's reader. One answer to each sign, so that what `act`
// promises is one equation; OpenSet says whether a Z stood before it.
#[derive(Clone, Copy)]
pub enum Act {
    Go(Progress),
    Put(Position, Progress),
    AddDot(Progress),
    OpenSet(bool),
    Halt,
}

impl Progress {
    // Before the first byte of an alternative.
    pub(crate) fn fresh() -> Progress
        ensures { result ≡ fresh }
    {
        Progress {
            mark: Mark::Unmarked,
            marked: false,
            needs: false,
            first: 0,
            last: Last::Nothing,
        }
    }

    // How far an alternative is read behind one more byte, which has the offset `at` and leaves `last`.
    pub(crate) fn go_on(self, at: usize, mark: Mark, marked: bool, last: Last) -> Progress
        ensures { result ≡ onward self at mark marked last }
    {
        let first = match self.last {
            Last::Nothing => at,
            _ => self.first,
        };
        let needs = self.needs || matches!(self.last, Last::Position);
        Progress {
            mark,
            marked,
            needs,
            first,
            last,
        }
    }

    // Ends alternative `number`, if `here` says that it may end there. With `judged`, one that needs no key
    // is refused for that first.
    pub(crate) fn halt(self, number: u8, at: usize, here: bool, judged: bool) -> Result<Act, Fault>
        ensures { result ≡ at_halt number self at here judged self.last }
    {
        match self.last {
            Last::Nothing => Err(Cause::Byte.at(at, number)),
            Last::Hold(z) => Err(Cause::Affix.at(z, number)),
            Last::Mark | Last::Dot if judged && !self.needs => {
                Err(Cause::Keyless.at(self.first, number))
            }
            _ if here => Ok(Act::Halt),
            _ => Err(Cause::Byte.at(at, number)),
        }
    }

    // A dot belongs right behind a position.
    pub(crate) fn dot(self, number: u8, at: usize) -> Result<Act, Fault>
        ensures { result ≡ at_dot number self at self.last }
    {
        match self.last {
            Last::Position => Ok(Act::AddDot(Progress {
                marked: false,
                last: Last::Dot,
                ..self
            })),
            Last::Hold(z) => Err(Cause::Affix.at(z, number)),
            _ => Err(Cause::Affix.at(at, number)),
        }
    }
}
