ghost use Rattle.std.specs.Prelude.{◌≡◌};
ghost use Rattle.plans.specs.Refusals.{refusal_number};

// Why a plan is not made: a code has not 1 to 8 keys; a key of it is above 15; a width is not 1 to 6; there
// are more than 4,096 lots.
#[derive(Clone, Copy, PartialEq, Eq, Debug)]
pub enum Refusal {
    CodeLength = 60,
    CodeKey = 61,
    Width = 62,
    Lots = 63,
}

impl Refusal {
    pub fn number(self) -> u8
        ensures { result ≡ refusal_number self }
    {
        self as u8
    }
}
