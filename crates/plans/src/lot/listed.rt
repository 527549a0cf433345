ghost use Rattle.std.specs.Prelude.{◌≤◌, Decides};
ghost use Rattle.keypad.specs.Sets.{Starts, Settled};
ghost use Rattle.plans.specs.LotPlans.{lot_rest, LotBegins};

use crate::digits::power_of_ten;
use crate::lot::LotPlan;
use keypad::key::Symbol;

impl LotPlan {
    // Whether some listed number fits and its first digits, so many, write the value.
    pub(super) fn any_begins(&self, digits: u8, value: u32) -> bool
        requires { digits ≤ self.now.width }
        ensures { Decides result (LotBegins self.now digits value) }
    {
        let limit = power_of_ten(self.width);
        let unit = power_of_ten(self.width - digits);
        self.lots
            .iter()
            .any(|lot| *lot < limit && *lot / unit == value)
    }

    // Whether the key is a digit with which some lot goes on.
    pub(super) fn continues(&self, key: u8) -> bool
        ensures { Decides result (Starts (lot_rest self.now) (Symbol.Plain key)) }
    {
        if self.taken == self.width || key > 9 {
            return false;
        }
        self.any_begins(self.taken + 1, self.prefix * 10 + u32::from(key))
    }

    // Whether the digits pressed are all those of a lot.
    pub(super) fn complete(&self) -> bool
        ensures { Decides result (Settled (lot_rest self.now)) }
    {
        self.taken == self.width && self.any_begins(self.taken, self.prefix)
    }
}
