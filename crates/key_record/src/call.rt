use crate::settings::Settings;
use crate::timer::Timer;
use keypad::key::KeyEvent;

// A receipt by its plain numbers: the line's number and its count of reports.
#[derive(Clone, Copy, PartialEq, Eq, Debug)]
pub struct Numbers {
    pub number: u32,
    pub count: u32,
}

// One call of a line. A receipt is given by its numbers, and memory by its length.
#[derive(Clone, Copy, PartialEq, Eq, Debug)]
pub enum Call {
    Arm(Settings),
    Key(KeyEvent),
    Expire(Timer),
    Claim,
    Book(Numbers, usize),
    Waive(Numbers),
}
