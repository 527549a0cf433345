ghost use Rattle.digit_map.specs.Maps.{places};
ghost use Rattle.map_plan.specs.Live.{Closed};

use crate::places::Places;
use digit_map::map::Map;

// A map, and the places that are live: those where some alternative may go on after the symbols pressed since
// the last rewind. Behind a live place that has a dot, the next one is live too.
#[derive(Drop)]
pub struct MapPlan {
    pub(crate) map: Map,
    pub(crate) live: Places,
    ghost closed: { Closed (places map) live },
}
