ghost use Rattle.std.specs.Prelude.{◌≡◌};
ghost use Rattle.digit_map.specs.Meaning.{is_end};
ghost use Rattle.map_plan.specs.Asking.{in_keys, accepts, takes_symbol, has_dot};

use digit_map::node::{Node, Position};
use keypad::key::Symbol;

fn has_key(keys: u16, key: u8) -> bool
    ensures { result ≡ in_keys keys key }
{
    key < 16 && keys >> key & 1 == 1
}

// A long position takes long symbols only, any other plain ones only.
fn accepts_symbol(position: Position, symbol: Symbol) -> bool
    ensures { result ≡ accepts position symbol }
{
    match symbol {
        Symbol::Plain(key) => !position.long && has_key(position.keys, key),
        Symbol::Long(key) => position.long && has_key(position.keys, key),
    }
}

// Whether a position is awaited that takes the symbol.
pub(crate) fn takes(node: Node, symbol: Symbol) -> bool
    ensures { result ≡ takes_symbol symbol node }
{
    node.awaits
        .is_some_and(|position| accepts_symbol(position, symbol))
}

pub(crate) fn ends(node: Node) -> bool
    ensures { result ≡ is_end node.awaits }
{
    node.awaits.is_none()
}

pub(crate) fn dotted(node: Node) -> bool
    ensures { result ≡ has_dot node.awaits }
{
    node.awaits.is_some_and(|position| position.dotted)
}
