use keypad::key::KeyEvent;
use keypad::row::Row;

pub mod queue;

// The keys that were pressed before they could be processed, the oldest first: at most 32. A type of its own, so
// that the keys ahead are never taken for another list.
#[derive(Clone, Copy)]
pub struct Ahead {
    events: Row<KeyEvent, 32>,
}
