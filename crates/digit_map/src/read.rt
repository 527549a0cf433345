ghost use Rattle.std.specs.Prelude.{◌≡◌, true, Ok};
ghost use Rattle.digit_map.specs.Reads.{sized, HeadRead};
ghost use Rattle.digit_map.specs.Derives.{ReadExactly, Replaced};

use crate::alternative::read_alternatives;
use crate::draft::Draft;
use crate::fault::{Cause, Fault};
use crate::head::read_head;
use crate::map::Map;
use keypad::timers::Timers;

// Reads the part of a text behind its head, and finishes the map where it was begun: a draft that is handed on
// is copied whole, and a text that is refused before has none.
fn read_behind(text: &[u8], timers: Timers, head: usize) -> Result<Map, Fault>
    requires sized { sized text.now ≡ true }
    requires head { HeadRead text.now (Ok (timers, head)) }
    ensures { ReadExactly text.now result }
{
    let mut draft = Draft::begin(timers);
    read_alternatives(&text[head..], head, head > 0, &mut draft)?;
    Ok(Map::finish(draft))
}

// Reads the text of a map: the map that the grammar derives it as, or its first fault. It cannot lack memory.
pub fn read_map(text: &[u8]) -> Result<Map, Fault>
    ensures { ReadExactly text.now result }
{
    if text.is_empty() || text.len() > 2048 {
        return Err(Cause::Length.at(0, 1));
    }
    let (timers, head) = read_head(text)?;
    read_behind(text, timers, head)
}

// Reads the text of a map into a place; a refused text leaves what the place holds.
pub fn read_into(map: &mut Map, text: &[u8]) -> Result<(), Fault>
    ensures { Replaced text.now map.old map.new result }
{
    *map = read_map(text)?;
    Ok(())
}
