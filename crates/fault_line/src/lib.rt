//! The line that tells the fault of a map's text.
#![tactic(auto)]

ghost use Rattle.std.specs.Prelude.{◌≡◌, IfOk, string_bytes};
ghost use Rattle.fault_line.specs.Told.{told};

use digit_map::fault::Fault;
use std::alloc::{AllocError, Global};

// The line `map 3 at 3 alternative 2` and its line feed: cause, offset and alternative.
#[tactic(auto, unfolding(crate::specs::Told::told))]
pub fn fault_line(heap: Global, fault: Fault) -> Result<String, AllocError>
    ensures { IfOk result (λ s. string_bytes s ≡ told fault) }
{
    let cause = fault.cause.number();
    let offset = fault.offset;
    let alternative = fault.alternative;
    format!(in heap; "map {cause} at {offset} alternative {alternative}\n")
}
