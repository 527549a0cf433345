use key_record::settings::{Disposition, Procedure};
use key_record::timer::Timer;
use keypad::key::KeyEvent;

// What a line is told to do. The map that it goes by has the timers that it is armed with, and to close it is
// to claim its report and to book it.
#[derive(Clone, Copy, PartialEq, Eq, Debug)]
pub enum Command {
    Arm(Procedure, Disposition),
    Key(KeyEvent),
    Expire(Timer),
    Close,
}
