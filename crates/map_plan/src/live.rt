ghost use Rattle.std.specs.Prelude.{◌≡◌, ◌<◌, Bool};
ghost use Rattle.keypad.specs.Answers.{Tells};
ghost use Rattle.digit_map.specs.declared.node.Node.{Node};
ghost use Rattle.digit_map.specs.Maps.{places};
ghost use Rattle.map_plan.specs.Asking.{Asks};
ghost use Rattle.map_plan.specs.Live.{Closed, passing};
ghost use Rattle.map_plan.specs.Plans.{SomeAnswers, Leaves};

use crate::answer::{dotted, ends, takes};
use crate::places::Places;
use crate::plan::MapPlan;
use digit_map::node::Node;
use keypad::key::Symbol;

// Whether a live place is one to which `asks` says yes.
pub(crate) fn any_live<F: Fn(Node) -> bool>(plan: &MapPlan, asks: F) -> bool
    requires { F.IsAlwaysCallable asks }
    ensures { (p : Node → Bool) → Asks (F.post asks) p → Tells (SomeAnswers plan.now p) result }
{
    // A `for` and no chain: in it each place is known to lie in the set's words, so that none is tested for it.
    for (place, node) in plan.map.places().iter().enumerate() {
        if plan.live.has(place) && asks(*node) {
            return true;
        }
    }
    false
}

// Whether the place is passed: a live one by a symbol that it takes, or an alternative's end before any
// symbol. A test handed in would be no plainer: a flag that says whether the map begins would go with it.
fn passes(plan: &MapPlan, place: usize, node: Node, symbol: Option<Symbol>) -> bool
    requires { place < 320 }
    ensures { result ≡ passing plan.now.live symbol place node }
{
    match symbol {
        Some(symbol) => plan.live.has(place) && takes(node, symbol),
        None => ends(node),
    }
}

// The places that are live after a symbol, or before any. A place is reached behind one that is passed, and
// behind a live one with a dot; one with a dot that is passed stays live.
pub(crate) fn live_after(plan: &MapPlan, symbol: Option<Symbol>) -> Places
    ensures closed { Closed (places plan.now.map) result }
    ensures rest { Leaves plan.now symbol result }
{
    let mut live = Places::none();
    let mut reached = symbol.is_none();
    for (place, node) in plan.map.places().iter().enumerate() {
        let passed = passes(plan, place, *node, symbol);
        let repeats = dotted(*node);
        if reached || passed && repeats {
            live.add(place);
        }
        reached = passed || reached && repeats;
    }
    live
}
