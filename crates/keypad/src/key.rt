ghost use Rattle.std.specs.Prelude.{Some};
ghost use Rattle.keypad.specs.Letters.{symbol_name};

use crate::letter::key_letter;
use std::fmt;

// What one step of an entry asks for: a key, or the same key held long. A key is a number from 0 to 15.
#[derive(Clone, Copy, PartialEq, Eq, Debug)]
pub enum Symbol {
    Plain(u8),
    Long(u8),
}

impl fmt::Display for Symbol {
    ghost output = { λ symbol. Some (symbol_name symbol) };

    fn fmt<W: fmt::Write>(&self, f: &mut fmt::Formatter<W>) -> fmt::Result {
        match *self {
            Symbol::Plain(key) => write!(f, "{}", char::from(key_letter(key))),
            Symbol::Long(key) => write!(f, "Z{}", char::from(key_letter(key))),
        }
    }
}

// The timing mark in force while a step, or the end of an entry, is awaited; where entries differ, the later
// one here prevails.
#[derive(Clone, Copy, PartialEq, Eq, PartialOrd, Ord, Debug)]
pub enum Mark {
    Unmarked,
    Short,
    Long,
}

// One keystroke: the key, and how long it was held in tenths of a second.
#[derive(Clone, Copy, PartialEq, Eq, Debug)]
pub struct KeyEvent {
    pub key: u8,
    pub tenths: u16,
}
