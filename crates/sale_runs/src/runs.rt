//! Sales one behind another.
ghost use Rattle.std.specs.Prelude.{ℕ, ◌<◌, List, length, IfOk, MatchBool, MatchOption};
ghost use Rattle.sale_runs.specs.Runs.{Marked, Unmarked, First, Parts, Runs};

use sale::session::sell;
use std::alloc::{AllocError, Global};

// The line that ends a sale.
const MARK: &[u8; 5] = b"====\n";

// Whether a line that ends a sale begins at the place.
fn is_marked(input: &[u8], at: usize) -> bool
    requires { at < length input.now }
    ensures { MatchBool result ((rest : List ℕ) × Marked input.now at rest)
        ((rest : List ℕ) → Marked input.now at rest → ⊥) }
{
    (at == 0 || input[at - 1] == b'\n') && input[at..].starts_with(MARK)
}

// Where the first line that ends a sale begins.
fn first_mark(input: &[u8]) -> Option<usize>
    ensures { MatchOption result (Unmarked input.now (length input.now)) (First input.now) }
{
    (0..input.len()).find(|at| is_marked(input, *at))
}

// What stands before the first line that ends a sale and what stands behind it, or none where no line does.
fn first_sale(input: &[u8]) -> Option<(&[u8], &[u8])>
    ensures { MatchOption result (Unmarked input.now (length input.now))
        (λ x. Parts input.now x.0.now x.1.now) }
{
    let at = first_mark(input)?;
    Some((&input[0..at], &input[at + MARK.len()..]))
}

// What the sales of an input print, each with the line that ends it. What stands behind the last such line is
// left out.
pub fn run_all(heap: Global, input: &[u8]) -> Result<Vec<u8>, AllocError>
    ensures { IfOk result (λ out. Runs input.now out.items) }
{
    let mut out = Vec::new(heap);
    let mut rest = input;
    while let Some((one, after)) = first_sale(rest) {
        let printed = sell(heap, one)?;
        out.extend_from_slice(&printed)?;
        out.extend_from_slice(MARK)?;
        rest = after;
    }
    Ok(out)
}
