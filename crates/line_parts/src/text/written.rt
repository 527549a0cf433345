ghost use Rattle.std.specs.Prelude.{◌≡◌, ◌≤◌, [], ◌∷◌, ◌++◌, length, is_some, IfSome};
ghost use Rattle.line_parts.specs.Texts.{text_of, cut, Laid};

use crate::text::Text;
use keypad::row::Row;

impl Text {
    // No byte yet.
    pub fn new() -> Text
        ensures { text_of result ≡ [] }
    {
        Text { bytes: Row::of(0) }
    }

    // One byte more; past the 85th it is left out.
    pub fn push(&mut self, byte: u8)
        ensures { text_of self.new ≡ cut (text_of self.old ++ byte ∷ []) }
    {
        self.bytes.push(byte);
    }

    // More bytes, as many as there is room for.
    pub fn push_all(&mut self, more: &[u8])
        ensures { text_of self.new ≡
            cut (text_of self.old ++ more.now) }
    {
        self.bytes.extend_from_slice(more);
    }

    pub fn len(&self) -> usize
        ensures value { result ≡ length (text_of self.now) }
        ensures bound { result ≤ 85 }
    {
        self.bytes.len()
    }

    pub fn as_bytes(&self) -> &[u8]
        ensures { result.now ≡ text_of self.now }
    {
        self.bytes.as_slice()
    }

    // Writes the text at the start of the memory and answers its length, or writes none of it if there is no
    // room for all.
    pub fn write_to(&self, memory: &mut [u8]) -> Option<usize>
        ensures laid { Laid (text_of self.now) memory.old (is_some result) memory.new }
        ensures length { IfSome result (λ n. n ≡ length (text_of self.now)) }
    {
        // Tried by get_mut and a `?`: two of its goals stay open.
        let bytes = self.as_bytes();
        if bytes.len() > memory.len() {
            return None;
        }
        memory[..bytes.len()].copy_from_slice(bytes);
        Some(bytes.len())
    }

    // Whether there was room: `write_to` without the length.
    pub fn lay(&self, memory: &mut [u8]) -> bool
        ensures { Laid (text_of self.now) memory.old result memory.new }
    {
        self.write_to(memory).is_some()
    }
}
