use keypad::row::Row;

pub mod written;

// The text of one line: at most 85 bytes, which is as long as a report line can be. It is filled by methods of
// its own, since `write!` promises its bytes only where it succeeds, and not that it does. A type of its own around
// the row, so that a text is never taken for other bytes.
#[derive(Clone, Copy)]
pub struct Text {
    bytes: Row<u8, 85>,
}
