ghost use Rattle.std.specs.Prelude.{◌≡◌, ◌<◌, [], ◌∷◌, ◌++◌, length, slice_get};
ghost use Rattle.digit_map.specs.Nodes.{count_positions, count_ends, awaiting, ending, dot_last_lem};
ghost use Rattle.digit_map.specs.Drafts.{drafted};

use crate::draft::Draft;
use crate::node::{Node, Position};
use keypad::key::Mark;
use keypad::row::Row;
use keypad::timers::Timers;

impl Draft {
    // A draft with no alternative yet.
    pub(crate) fn begin(timers: Timers) -> Draft
        ensures places { drafted result ≡ [] }
        ensures timers { result.timers ≡ timers }
    {
        let end = Node {
            awaits: None,
            mark: Mark::Unmarked,
            marked: false,
        };
        Draft {
            timers,
            nodes: Row::of(end),
            positions: 0,
            alternatives: 0,
        }
    }

    // One position more. It and an end are two methods, since each keeps a limit of its own.
    pub(crate) fn put(&mut self, position: Position, mark: Mark, marked: bool)
        requires { count_positions (drafted self.old) < 255 }
        ensures places { drafted self.new ≡ drafted self.old ++ awaiting position mark marked ∷ [] }
        ensures timers { self.new.timers ≡ self.old.timers }
    {
        self.nodes.push(Node {
            awaits: Some(position),
            mark,
            marked,
        });
        self.positions += 1;
    }

    // The end of an alternative.
    pub(crate) fn end(&mut self, mark: Mark, marked: bool)
        requires { count_ends (drafted self.old) < 64 }
        ensures places { drafted self.new ≡ drafted self.old ++ ending mark marked ∷ [] }
        ensures timers { self.new.timers ≡ self.old.timers }
    {
        self.nodes.push(Node {
            awaits: None,
            mark,
            marked,
        });
        self.alternatives += 1;
    }

    // A dot behind the last position.
    pub(crate) fn dot_last(&mut self)
        ensures places { drafted self.new ≡ dot_last_lem (drafted self.old) }
        ensures timers { self.new.timers ≡ self.old.timers }
    {
        let last = self.len().saturating_sub(1);
        if let Some(node) = self.nodes.get(last) {
            let awaits = node.awaits.map(|position| Position {
                dotted: true,
                ..position
            });
            self.nodes.set(last, Node { awaits, ..node });
        }
    }

    pub(crate) fn timers(&self) -> Timers
        ensures { result ≡ self.now.timers }
    {
        self.timers
    }

    // How many places the draft has, the ends of its alternatives among them.
    pub(crate) fn len(&self) -> usize
        ensures { result ≡ length (drafted self.now) }
    {
        self.nodes.len()
    }

    pub(crate) fn positions(&self) -> usize
        ensures { result ≡ count_positions (drafted self.now) }
    {
        self.positions
    }

    pub(crate) fn alternatives(&self) -> usize
        ensures { result ≡ count_ends (drafted self.now) }
    {
        self.alternatives
    }

    pub(crate) fn places(&self) -> &[Node]
        ensures { result.now ≡ drafted self.now }
    {
        self.nodes.as_slice()
    }

    // The place with the given index, counted from 0.
    pub(crate) fn place(&self, index: usize) -> Option<Node>
        ensures { result ≡ slice_get (drafted self.now) index }
    {
        self.nodes.get(index)
    }
}
