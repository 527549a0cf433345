//! A symbol, and the line that tells a key, in words.
ghost use Rattle.std.specs.Prelude.{◌≡◌, IfOk, string_bytes};
ghost use Rattle.map_report.specs.Writes.{Adds};
ghost use Rattle.plan_report.specs.Words.{named, key_line};

use crate::standing::Standing;
use keypad::key::Symbol;
use std::alloc::{AllocError, Global};

// Writes a symbol: its key, with a Z in front if it is held long.
pub fn write_symbol(out: &mut String, symbol: Symbol) -> Result<(), AllocError>
    ensures { Adds out.old result (named symbol) out.new }
{
    write!(out, "{symbol}")
}

// The line that tells a key: the answers at the key, how the plan stands behind it, and what is open then.
pub fn key_told(
    heap: Global,
    symbol: Symbol,
    opens: bool,
    taken: bool,
    standing: Standing,
    names: &str,
) -> Result<String, AllocError>
    ensures { IfOk result (λ s. string_bytes s ≡ key_line symbol opens taken standing
        names.now) }
{
    let opened = if opens { "open" } else { "shut" };
    let pressed = if taken { "taken" } else { "not taken" };
    let lead = if names.is_empty() { "" } else { ", next" };
    format!(in heap; "{symbol} {opened}, {pressed}{standing}{lead}{names}\n")
}
