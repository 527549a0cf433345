ghost use Rattle.plans.specs.LotPlans.{lot_whole, lot_rest};
ghost use Rattle.plans.specs.LotsLemmas.{listed_steps};

use crate::lot::LotPlan;
use keypad::key::{Mark, Symbol};
use keypad::plan::Plan;

impl Plan for LotPlan {
    ghost whole = { lot_whole };

    ghost rest = { lot_rest };

    ghost stepped = { λ p. listed_steps p.lots.items p.width p.some };

    fn rewind(&mut self) {
        self.taken = 0;
        self.prefix = 0;
    }

    fn open(&self, symbol: Symbol) -> bool {
        matches!(symbol, Symbol::Plain(key) if self.continues(key))
    }

    fn press(&mut self, symbol: Symbol) -> bool {
        let Symbol::Plain(key) = symbol else {
            return false;
        };
        let taken = self.continues(key);
        if taken {
            self.prefix = self.prefix * 10 + u32::from(key);
            self.taken += 1;
        }
        taken
    }

    fn satisfied(&self) -> bool {
        self.complete()
    }

    // The same as satisfied: a lot is never held.
    fn settled(&self) -> bool {
        self.complete()
    }

    fn goes_on(&self) -> bool {
        self.taken < self.width && self.any_begins(self.taken, self.prefix)
    }

    fn timing(&self) -> Mark {
        Mark::Unmarked
    }
}
