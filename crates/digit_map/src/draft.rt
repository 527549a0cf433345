ghost use Rattle.std.specs.Prelude.{◌≡◌, ◌≤◌};
ghost use Rattle.keypad.specs.Rows.{listed};
ghost use Rattle.digit_map.specs.Nodes.{count_positions, count_ends};

use crate::node::Node;
use keypad::row::Row;
use keypad::timers::Timers;

pub mod places;

// A map as it is read: its timers, and the places of its alternatives so far, one behind another, each
// alternative's end as its last place. It has at most 255 positions and at most 64 ends. Both are counted as
// they come: every sign asks for the positions, and a map tells either number without a walk over its places.
// The timers go with the places, since what the readers promise speaks of both at once.
#[derive(Clone, Copy)]
pub struct Draft {
    timers: Timers,
    nodes: Row<Node, 320>,
    positions: usize,
    alternatives: usize,
    ghost counted: { positions ≡ count_positions (listed nodes) },
    ghost few: { positions ≤ 255 },
    ghost ended: { alternatives ≡ count_ends (listed nodes) },
    ghost within: { count_ends (listed nodes) ≤ 64 },
}
