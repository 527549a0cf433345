//! What the keys of a row give at each make of plan.
ghost use Rattle.plan_report.specs.Rows.{RowTold};
ghost use Rattle.std.specs.Prelude.{IfOk, IfErr, string_bytes};
ghost use Rattle.plancheck.specs.Makes.{entries_of};
ghost use Rattle.plancheck.specs.Materials.{materials};
ghost use Rattle.plancheck.specs.Stops.{ForMemory, Tried};
ghost use Rattle.plancheck.specs.Stores.{store_of};
ghost use Rattle.plancheck.specs.declared.make.Make.TheVariants as make;

use crate::kept::Kept;
use crate::make::Make;
use crate::stop::Stop;
use keypad::key::Symbol;
use keypad::plan::Plan;
use plan_report::key::tell_row;
use plans::pair::PairPlan;
use std::alloc::Global;

// Tells each key of the row at a plan.
fn tell_one<P: Plan + Drop>(heap: Global, mut plan: P, row: &[Symbol]) -> Result<String, Stop>
    ensures stops { IfErr result ForMemory }
    ensures told { IfOk result (λ s. RowTold (P.Plan.whole plan) row.now (string_bytes s)) }
{
    Ok(tell_row(heap, &mut plan, row)?)
}

// The keys of the row at the map alone. Each make with a map has a function of its own: a map is large, and a
// function pays at entry for the size of its locals.
fn tell_at_map(kept: &Kept, row: &[Symbol]) -> Result<String, Stop>
    ensures cases { Tried (store_of kept.now) (materials make.Map) result }
    ensures told { IfOk result (λ s. RowTold (entries_of (store_of kept.now) make.Map)
        row.now (string_bytes s)) }
{
    tell_one(kept.heap, kept.map_plan()?, row)
}

// The keys of the row at the map beside the lots.
fn tell_at_pair(kept: &Kept, row: &[Symbol]) -> Result<String, Stop>
    ensures cases { Tried (store_of kept.now) (materials make.Pair) result }
    ensures told { IfOk result (λ s. RowTold (entries_of (store_of kept.now) make.Pair)
        row.now (string_bytes s)) }
{
    let pair = PairPlan::new(kept.map_plan()?, kept.lot_plan()?);
    tell_one(kept.heap, pair, row)
}

// The keys of the row at the code over the map.
fn tell_at_coded(kept: &Kept, row: &[Symbol]) -> Result<String, Stop>
    ensures cases { Tried (store_of kept.now) (materials make.Coded) result }
    ensures told { IfOk result (λ s. RowTold (entries_of (store_of kept.now) make.Coded)
        row.now (string_bytes s)) }
{
    tell_one(kept.heap, kept.coded(kept.map_plan()?)?, row)
}

// The keys of the row at the map beside the code over the lots.
fn tell_at_pair_coded(kept: &Kept, row: &[Symbol]) -> Result<String, Stop>
    ensures cases { Tried (store_of kept.now) (materials make.PairCoded) result }
    ensures told { IfOk result (λ s. RowTold (entries_of (store_of kept.now) make.PairCoded)
        row.now (string_bytes s)) }
{
    let map = kept.map_plan()?;
    let coded = kept.coded(kept.lot_plan()?)?;
    tell_one(kept.heap, PairPlan::new(map, coded), row)
}

// The keys of the row at the code over the map beside the lots.
fn tell_at_coded_pair(kept: &Kept, row: &[Symbol]) -> Result<String, Stop>
    ensures cases { Tried (store_of kept.now) (materials make.CodedPair) result }
    ensures told { IfOk result (λ s. RowTold (entries_of (store_of kept.now) make.CodedPair)
        row.now (string_bytes s)) }
{
    let pair = PairPlan::new(kept.map_plan()?, kept.lot_plan()?);
    tell_one(kept.heap, kept.coded(pair)?, row)
}

// Makes the plan from what is kept, and tells each key of the row. Each make is a plan of a type of its own, so a
// match makes it.
pub fn tell(kept: &Kept, make: Make, row: &[Symbol]) -> Result<String, Stop>
    ensures cases { Tried (store_of kept.now) (materials make) result }
    ensures told { IfOk result (λ s. RowTold (entries_of (store_of kept.now) make)
        row.now (string_bytes s)) }
{
    match make {
        Make::Map => tell_at_map(kept, row),
        Make::Lots => tell_one(kept.heap, kept.lot_plan()?, row),
        Make::Pair => tell_at_pair(kept, row),
        Make::Coded => tell_at_coded(kept, row),
        Make::CodedLots => tell_one(kept.heap, kept.coded(kept.lot_plan()?)?, row),
        Make::PairCoded => tell_at_pair_coded(kept, row),
        Make::CodedPair => tell_at_coded_pair(kept, row),
    }
}
