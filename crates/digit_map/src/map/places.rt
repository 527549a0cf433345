ghost use Rattle.std.specs.Prelude.{◌≡◌, true, length, slice_get};
ghost use Rattle.digit_map.specs.Nodes.{count_positions, count_ends};
ghost use Rattle.digit_map.specs.Drafts.{drafted};
ghost use Rattle.digit_map.specs.Proper.{proper};
ghost use Rattle.digit_map.specs.Maps.{places, timers_of};

use crate::draft::Draft;
use crate::map::Map;
use crate::node::Node;
use keypad::timers::Timers;

// A draft is not shown: a map answers for it.
impl Map {
    // A map whose text is read to its end.
    pub(crate) fn finish(draft: Draft) -> Map
        requires { proper (drafted draft) ≡ true }
        ensures { result.draft ≡ draft }
    {
        Map { draft }
    }

    pub fn timers(&self) -> Timers
        ensures { result ≡ timers_of self.now }
    {
        self.draft.timers()
    }

    // How many places the map has, the ends of its alternatives among them.
    pub fn len(&self) -> usize
        ensures { result ≡ length (places self.now) }
    {
        self.draft.len()
    }

    pub fn positions(&self) -> usize
        ensures { result ≡ count_positions (places self.now) }
    {
        self.draft.positions()
    }

    pub fn alternatives(&self) -> usize
        ensures { result ≡ count_ends (places self.now) }
    {
        self.draft.alternatives()
    }

    // The places, one alternative behind another, each alternative's end as its last place.
    pub fn places(&self) -> &[Node]
        ensures { result.now ≡ places self.now }
    {
        self.draft.places()
    }

    // The place with the given index, counted from 0.
    pub fn place(&self, index: usize) -> Option<Node>
        ensures { result ≡ slice_get (places self.now) index }
    {
        self.draft.place(index)
    }
}
