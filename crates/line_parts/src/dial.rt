ghost use Rattle.std.specs.Prelude.{◌≡◌, ◌≤◌};
ghost use Rattle.key_record.specs.Dials.{chars};
ghost use Rattle.keypad.specs.Rows.{listed};

use keypad::key::Symbol;
use keypad::row::Row;

pub mod pressed;

// The symbols pressed since an arming, and the characters that they have: at most 64, of which a long symbol
// has two.
#[derive(Clone, Copy)]
pub struct Dial {
    symbols: Row<Symbol, 64>,
    width: usize,
    ghost counted: { width ≡ chars (listed symbols) },
    ghost short: { width ≤ 64 },
}
