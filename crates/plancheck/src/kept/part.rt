//! The plans of what is kept.
ghost use Rattle.keypad.specs.Sets.{Same};
ghost use Rattle.map_plan.specs.Plans.{whole_of};
ghost use Rattle.plans.specs.LotPlans.{lot_whole};
ghost use Rattle.std.specs.Prelude.{IfOk};
ghost use Rattle.plancheck.specs.Makes.{map_entries, lot_entries, coded_entries};
ghost use Rattle.plancheck.specs.Materials.{the_map, the_lots, the_code};
ghost use Rattle.plancheck.specs.Stops.{Supplied};
ghost use Rattle.plancheck.specs.Stores.{store_of};

use crate::kept::Kept;
use crate::stop::Stop;
use keypad::plan::Plan;
use map_plan::plan::MapPlan;
use plans::coded::CodedPlan;
use plans::lot::LotPlan;

impl Kept {
    // The plan of the map that is kept.
    pub fn map_plan(&self) -> Result<MapPlan, Stop>
        ensures cases { Supplied (store_of self.now) the_map result }
        ensures admits { IfOk result (λ p. Same (whole_of p) (map_entries (store_of self.now))) }
    {
        let map = self.map.ok_or(Stop::Mapless)?;
        Ok(MapPlan::new(map))
    }

    // The plan of the lots that are kept.
    pub fn lot_plan(&self) -> Result<LotPlan, Stop>
        ensures cases { Supplied (store_of self.now) the_lots result }
        ensures admits { IfOk result (λ p. Same (lot_whole p) (lot_entries (store_of self.now))) }
    {
        Ok(LotPlan::new(self.lots.clone()?, self.width)?)
    }

    // A plan behind the code that is kept.
    pub fn coded<P: Plan + Drop>(&self, part: P) -> Result<CodedPlan<P>, Stop>
        ensures cases { Supplied (store_of self.now) the_code result }
        ensures admits { IfOk result (λ p. Same (⟦<CodedPlan<P> as Plan>⟧.whole p)
            (coded_entries (store_of self.now) (P.Plan.whole part))) }
    {
        Ok(CodedPlan::new(&self.code, part)?)
    }
}
