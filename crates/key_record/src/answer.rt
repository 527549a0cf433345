use crate::call::Numbers;
use crate::refusal::Refusal;
use crate::timer::Timer;

// What a line answers to an arming, a key or an expiry: it brought a report, or the line waits, for a timer's
// seconds or without limit, or so many keys are ahead.
#[derive(Clone, Copy, PartialEq, Eq, Debug)]
pub enum Progress {
    Done,
    Wait(Option<(Timer, u8)>),
    Ahead(usize),
}

// What a line answers to a call that it does not refuse.
#[derive(Clone, Copy, PartialEq, Eq, Debug)]
pub enum Answer {
    Moved(Progress),
    Claimed(Numbers),
    Booked(usize),
    Waived,
}

// The answer to a call or its refusal, and the timer that runs after it.
#[derive(Clone, Copy, PartialEq, Eq, Debug)]
pub struct Reply {
    pub answer: Result<Answer, Refusal>,
    pub timer: Option<(Timer, u8)>,
}
