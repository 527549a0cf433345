ghost use Rattle.keypad.specs.Sets.{Empty, Same};
ghost use Rattle.digit_map.specs.Maps.{places};
ghost use Rattle.digit_map.specs.Meaning.{MapEntry};
ghost use Rattle.map_plan.specs.Plans.{whole_of, rest_of};
ghost use Rattle.digit_map.proofs.Maps.{is_proper};
ghost use Rattle.digit_map.proofs.Meanings.{meant};

use crate::answer::{ends, takes};
use crate::live::{any_live, live_after};
use crate::places::Places;
use crate::plan::MapPlan;
use digit_map::map::Map;
use keypad::key::{Mark, Symbol};
use keypad::plan::Plan;

impl MapPlan {
    // The plan of a map, before any symbol.
    pub fn new(map: Map) -> MapPlan
        ensures whole { Same (whole_of result) (MapEntry (places map)) }
        ensures rest { Same (rest_of result) (MapEntry (places map)) }
        ensures filled { Empty (whole_of result) → ⊥ }
    {
        let mut plan = MapPlan {
            map,
            live: Places::none(),
        };
        plan.live = live_after(&plan, None);
        plan
    }
}

impl Plan for MapPlan {
    ghost whole = { whole_of };

    ghost rest = { rest_of };

    ghost stepped = { λ p e x. (meant (places p.map) (is_proper p.map)).stepped e x };

    fn rewind(&mut self) {
        self.live = live_after(self, None);
    }

    fn open(&self, symbol: Symbol) -> bool {
        any_live(self, |node| takes(node, symbol))
    }

    fn press(&mut self, symbol: Symbol) -> bool {
        if !self.open(symbol) {
            return false;
        }
        self.live = live_after(self, Some(symbol));
        true
    }

    fn satisfied(&self) -> bool {
        any_live(self, ends)
    }

    fn settled(&self) -> bool {
        any_live(self, |node| ends(node) && !node.marked)
    }

    fn goes_on(&self) -> bool {
        any_live(self, |node| node.awaits.is_some())
    }

    fn timing(&self) -> Mark {
        if any_live(self, |node| node.mark == Mark::Long) {
            Mark::Long
        } else if any_live(self, |node| node.mark == Mark::Short) {
            Mark::Short
        } else {
            Mark::Unmarked
        }
    }
}
