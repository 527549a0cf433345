ghost use Rattle.std.specs.Prelude.{◌≡◌};
ghost use Rattle.keypad.specs.Timing.{standard};

// The start timer T, the short timer S and the long timer L in seconds, and the length Z above which a key is
// long, in tenths of a second.
#[derive(Clone, Copy, PartialEq, Eq, Debug)]
pub struct Timers {
    pub start: u8,
    pub short: u8,
    pub long: u8,
    pub hold: u8,
}

// The timers of a map that sets none.
pub fn standard_timers() -> Timers
    ensures { result ≡ standard }
{
    Timers {
        start: 9,
        short: 5,
        long: 16,
        hold: 10,
    }
}
