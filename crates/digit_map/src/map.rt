ghost use Rattle.std.specs.Prelude.{◌≡◌, true};
ghost use Rattle.digit_map.specs.Drafts.{drafted};
ghost use Rattle.digit_map.specs.Proper.{proper};

use crate::draft::Draft;

pub mod places;

// A house's map: its timers, and the places of its alternatives one behind another, each alternative's end as
// its last place. It has an alternative, every position has a key, and every alternative needs one.
#[derive(Clone, Copy)]
pub struct Map {
    draft: Draft,
    ghost proper: { proper (drafted draft) ≡ true },
}
