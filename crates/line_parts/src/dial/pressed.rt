ghost use Rattle.std.specs.Prelude.{◌≡◌, ◌+◌, cond, [], ◌∷◌, ◌++◌, nat_le};
ghost use Rattle.key_record.specs.Dials.{width, chars, fresh};
ghost use Rattle.line_parts.specs.Dialled.{dialled};

use crate::dial::Dial;
use keypad::key::Symbol;
use keypad::row::Row;

// How many characters a symbol has.
fn symbol_width(symbol: Symbol) -> usize
    ensures { result ≡ width symbol }
{
    match symbol {
        Symbol::Plain(_) => 1,
        Symbol::Long(_) => 2,
    }
}

impl Dial {
    // No symbol yet.
    pub fn new() -> Dial
        ensures { dialled result ≡ [] }
    {
        Dial {
            symbols: Row::of(Symbol::Plain(0)),
            width: 0,
        }
    }

    // Whether one symbol more leaves at most 64 characters.
    pub fn takes(&self, symbol: Symbol) -> bool
        ensures { result ≡ nat_le (chars (dialled self.now) + width symbol) 64 }
    {
        self.width + symbol_width(symbol) <= 64
    }

    // One symbol more; one that does not fit is left out.
    pub fn push(&mut self, symbol: Symbol)
        ensures { dialled self.new ≡
            cond (nat_le (chars (dialled self.old) + width symbol) 64)
            (dialled self.old ++ symbol ∷ []) (dialled self.old) }
    {
        if self.takes(symbol) {
            self.symbols.push(symbol);
            self.width += symbol_width(symbol);
        }
    }

    // Whether no symbol has been pressed yet.
    pub fn is_fresh(&self) -> bool
        ensures { result ≡ fresh (dialled self.now) }
    {
        self.symbols().is_empty()
    }

    pub fn symbols(&self) -> &[Symbol]
        ensures { result.now ≡ dialled self.now }
    {
        self.symbols.as_slice()
    }
}
