use crate::timer::Timer;
use keypad::key::Symbol;

// How well a dial string matched: it is an entry and none goes further, it is an entry, or it is none.
#[derive(Clone, Copy, PartialEq, Eq, Debug)]
pub enum Method {
    Unambiguous,
    Full,
    Partial,
}

// What brought a report: the press that completed an entry, a key that fitted nowhere, or a timer.
#[derive(Clone, Copy, PartialEq, Eq, Debug)]
pub enum Trigger {
    Press,
    Extra(Symbol),
    Expiry(Timer),
}

// How an entry ended.
#[derive(Clone, Copy, PartialEq, Eq, Debug)]
pub struct Ending {
    pub method: Method,
    pub trigger: Trigger,
}

// Where a line stands between two calls.
#[derive(Clone, Copy, PartialEq, Eq, Debug)]
pub enum Phase {
    Idle,
    Open,
    Done(Ending),
    Claimed(Ending),
}
