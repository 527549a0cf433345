//! The symbols that a plan opens.
ghost use Rattle.std.specs.Prelude.{[], ◌∷◌, IfOk, string_bytes};
ghost use Rattle.plan_report.specs.Listings.{AddsListed, Listed, symbols};

use keypad::key::Symbol;
use keypad::plan::Plan;
use std::alloc::{AllocError, Global};

// Writes a symbol behind a blank, if the plan opens it.
fn write_if_open<P: Plan>(out: &mut String, plan: &P, symbol: Symbol) -> Result<(), AllocError>
    ensures { AddsListed (P.Plan.rest plan.now) (symbol ∷ []) out.old result out.new }
{
    if plan.open(symbol) {
        write!(out, " {symbol}")?;
    }
    Ok(())
}

// The symbols that the plan opens, each behind a blank: first the keys, and then the same held long.
pub fn open_names<P: Plan>(heap: Global, plan: &P) -> Result<String, AllocError>
    ensures { IfOk result (λ s. Listed (P.Plan.rest plan.now) symbols (string_bytes s)) }
{
    // No chain of both ranges: a `for` over it has no proof in a function that is generic in the plan.
    let mut names = String::new(heap);
    'plain: for key in 0..16 {
        write_if_open(&mut names, plan, Symbol::Plain(key))?;
    }
    'long: for key in 0..16 {
        write_if_open(&mut names, plan, Symbol::Long(key))?;
    }
    Ok(names)
}
