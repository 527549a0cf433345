ghost use Rattle.std.specs.Prelude.{◌+◌, ◌^◌, ◌<◌, ◌≤◌, length};

use crate::token::Cursor;

// A part of a text as it is read: its bytes, the offset of the first one, and where to read on. The definitions
// speak of text, base and cursor, so that their laws need no reader.
#[derive(Clone, Copy)]
pub(crate) struct Reader<'a> {
    pub(crate) text: &'a [u8],
    pub(crate) base: usize,
    pub(crate) cursor: Cursor,
    ghost within: { cursor.at ≤ length text.now },
    ghost fits: { base + length text.now < 2 ^ 64 },
}
