ghost use Rattle.std.specs.Prelude.{◌≡◌, IfOk, string_bytes};
ghost use Rattle.plancheck.specs.Replies.{question, Gives, MapKept, MapLine, LotsLine, CodeLine};
ghost use Rattle.plancheck.specs.Stores.{store_of, fresh};

use crate::read::{read_code, read_numbers};
use digit_map::map::Map;
use digit_map::read::read_map;
use fault_line::fault_line;
use std::alloc::{AllocError, Global};

mod part;

// The last map, the last lots with their width, and the last code. At first there is no map, the width is 0
// and the code has no keys, so that no plan can be made. All that is made of them lies in the same memory.
// A width and its lots are two fields, as a plan of lots takes them.
#[derive(Drop)]
pub struct Kept {
    pub heap: Global,
    map: Option<Map>,
    width: u8,
    lots: Vec<u32>,
    code: Vec<u8>,
}

// What is told of a line that says nothing.
pub fn unknown(heap: Global) -> Result<String, AllocError>
    ensures { IfOk result (λ s. string_bytes s ≡ question) }
{
    String::from_str(heap, "?\n")
}

impl Kept {
    pub fn new(heap: Global) -> Kept
        ensures { store_of result ≡ fresh }
    {
        Kept {
            heap,
            map: None,
            width: 0,
            lots: Vec::new(heap),
            code: Vec::new(heap),
        }
    }

    // Keeps the map of a text. A text that is no map is told by its fault, and the map before it stays.
    pub fn keep_map(&mut self, text: &[u8]) -> Result<String, AllocError>
        ensures gives { Gives (MapLine (store_of self.old) text.now) self.old result self.new }
        ensures map { MapKept text.now self.old.map self.new.map }
        ensures lots { self.new.lots ≡ self.old.lots }
        ensures code { self.new.code ≡ self.old.code }
    {
        match read_map(text) {
            Ok(map) => {
                self.map = Some(map);
                Ok(String::new(self.heap))
            }
            Err(fault) => fault_line(self.heap, fault),
        }
    }

    // Keeps a width and the numbers behind it. A text that has none, or whose width 8 bits do not hold, is
    // told by a question mark, and what was kept stays.
    pub fn keep_lots(&mut self, text: &[u8]) -> Result<String, AllocError>
        ensures gives { Gives (LotsLine (store_of self.old) text.now) self.old result self.new }
        ensures code { self.new.code ≡ self.old.code }
    {
        let Some(mut numbers) = read_numbers(self.heap, text)? else {
            return unknown(self.heap);
        };
        let Ok(width) = u8::try_from(numbers.remove(0)) else {
            return unknown(self.heap);
        };
        self.width = width;
        self.lots = numbers;
        Ok(String::new(self.heap))
    }

    // Keeps the keys of a code.
    pub fn keep_code(&mut self, text: &[u8]) -> Result<String, AllocError>
        ensures gives { Gives (CodeLine (store_of self.old) text.now) self.old result self.new }
        ensures lots { self.new.lots ≡ self.old.lots }
    {
        self.code = read_code(self.heap, text)?;
        Ok(String::new(self.heap))
    }
}
