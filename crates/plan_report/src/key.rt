//! What is told of a key, and of a row of keys.
ghost use Rattle.std.specs.Prelude.{◌≡◌, IfOk, string_bytes};
ghost use Rattle.keypad.specs.Sets.{Same};
ghost use Rattle.plan_report.specs.Keys.{KeyTold};
ghost use Rattle.plan_report.specs.Rows.{RowTold};

use crate::asked::standing_of;
use crate::next::open_names;
use crate::words::key_told;
use keypad::key::Symbol;
use keypad::plan::Plan;
use std::alloc::{AllocError, Global};

// Asks whether a symbol is open, presses it, and tells what came of it and how the plan stands behind it.
#[tactic(auto, using(crate::proofs::Lines::key_told))]
pub fn tell_key<P: Plan>(heap: Global, plan: &mut P, symbol: Symbol) -> Result<String, AllocError>
    ensures whole { Same (P.Plan.whole plan.new) (P.Plan.whole plan.old) }
    ensures told { IfOk result (λ s. KeyTold (P.Plan.rest plan.old)
        (P.Plan.rest plan.new) symbol (string_bytes s)) }
{
    let opens = plan.open(symbol);
    let taken = plan.press(symbol);
    let standing = standing_of(plan);
    let names = open_names(heap, plan)?;
    key_told(heap, symbol, opens, taken, standing, names.as_str())
}

// Rewinds a plan, and tells each key of a row in order.
pub fn tell_row<P: Plan>(heap: Global, plan: &mut P, row: &[Symbol]) -> Result<String, AllocError>
    ensures whole { Same (P.Plan.whole plan.new) (P.Plan.whole plan.old) }
    ensures told { IfOk result (λ s. RowTold (P.Plan.whole plan.old) row.now
        (string_bytes s)) }
{
    plan.rewind();
    let mut out = String::new(heap);
    for symbol in row {
        let line = tell_key(heap, plan, *symbol)?;
        out.push_str(line.as_str())?;
    }
    Ok(out)
}
