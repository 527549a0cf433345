ghost use Rattle.std.specs.Prelude.{◌≡◌, false};
ghost use Rattle.digit_map.specs.Nodes.{position};

use keypad::key::Mark;

// A position of an alternative: its keys as bits, whether its steps are long, and whether a dot makes it zero
// or more steps.
#[derive(Clone, Copy)]
pub struct Position {
    pub keys: u16,
    pub long: bool,
    pub dotted: bool,
}

impl Position {
    // One without a dot.
    pub(crate) fn of(keys: u16, long: bool) -> Position
        ensures { result ≡ position keys long false }
    {
        Position {
            keys,
            long,
            dotted: false,
        }
    }
}

// A place of an alternative: the position that is awaited there, or none at its end; the mark in force; and
// whether a mark stands right before it. An alternative is held exactly when a mark stands right before its
// end. `mark` and `marked` make no struct of their own: what follows a mark keeps the first and resets the
// second.
#[derive(Clone, Copy)]
pub struct Node {
    pub awaits: Option<Position>,
    pub mark: Mark,
    pub marked: bool,
}
