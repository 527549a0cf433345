ghost use Rattle.std.specs.Prelude.{◌≡◌};
ghost use Rattle.key_record.specs.Refusals.{refusal_number};

// Why a call of a line is refused: it is armed when not idle, with a setting outside its bounds, or after
// 999,999 reports; a key is above 15, or 32 keys are ahead, or the dial string would pass 64 characters; no
// timer runs, or another one; it is claimed when not done; a receipt is not the line's; memory is too short.
#[derive(Clone, Copy, PartialEq, Eq, Debug)]
pub enum Refusal {
    NotIdle = 20,
    Setting = 21,
    Reports = 22,
    Key = 30,
    Ahead = 31,
    Dial = 32,
    NoTimer = 40,
    OtherTimer = 41,
    NotDone = 50,
    Receipt = 51,
    Memory = 52,
}

impl Refusal {
    pub fn number(self) -> u8
        ensures { result ≡ refusal_number self }
    {
        self as u8
    }
}
