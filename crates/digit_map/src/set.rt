ghost use Rattle.std.specs.Prelude.{◌≡◌, ◌+◌, ◌^◌, ◌<◌, ◌≤◌, length};
ghost use Rattle.digit_map.specs.Sets.{set_turn, span, Sound, SoundTurn};
ghost use Rattle.digit_map.specs.Reads.{SetRead};
ghost use Rattle.digit_map.specs.Readers.{SamePart, placed};

use crate::fault::{Cause, Fault};
use crate::reader::Reader;
use crate::sign::key_of_letter;

// Where a set's reader stands: before its first member, behind a member, behind a digit that may begin a
// range, behind its hyphen.
#[derive(Clone, Copy)]
pub enum Place {
    Start,
    Member,
    Digit(u8),
    From(u8),
}

// What a byte that a set may have does to its reader. std's ControlFlow would call them Continue and Break.
#[derive(Clone, Copy)]
pub enum SetTurn {
    On(Place, u16),
    Done(u16),
}

// The keys from `low` to `high`, as bits.
fn keys_between(low: u8, high: u8) -> u16
    requires { (low ≤ high) × (high < 10) }
    ensures { result ≡ span low high }
{
    (2 << high) - (1 << low)
}

// A digit is added to the keys once the next byte shows that it begins no range; none for a byte that no set
// has there.
fn turn_set(place: Place, keys: u16, byte: u8) -> Option<SetTurn>
    requires { Sound place }
    ensures value { result ≡ set_turn place keys byte }
    ensures sound { SoundTurn result }
{
    let keys = match place {
        Place::Digit(_) if byte == b'-' => keys,
        Place::Digit(d) => keys | 1 << d,
        _ => keys,
    };
    match (place, byte) {
        (Place::From(low), b'0'..=b'9') if low <= byte - b'0' => {
            Some(SetTurn::On(Place::Member, keys | keys_between(low, byte - b'0')))
        }
        (Place::From(_), _) => None,
        (Place::Digit(low), b'-') => Some(SetTurn::On(Place::From(low), keys)),
        (_, b'0'..=b'9') => Some(SetTurn::On(Place::Digit(byte - b'0'), keys)),
        (_, b'A'..=b'F' | b'a'..=b'f') => {
            Some(SetTurn::On(Place::Member, keys | 1 << key_of_letter(byte)))
        }
        (Place::Member | Place::Digit(_), b']') => Some(SetTurn::Done(keys)),
        _ => None,
    }
}

impl Reader<'_> {
    // The keys of the set whose opening bracket has the offset `opened`, from the byte behind it on.
    pub(crate) fn set(&mut self, opened: usize, alternative: u8) -> Result<u16, Fault>
        ensures same { SamePart self.old self.new }
        ensures reads { SetRead self.old.text.now self.old.base self.old.cursor opened alternative
            (placed result self.new.cursor) }
    {
        let unread = Cause::Set.at(opened, alternative);
        let mut keys: u16 = 0;
        let mut place = Place::Start;
        'bytes: loop {
            let byte = self.next().byte(alternative, unread)?;
            match turn_set(place, keys, byte).ok_or(unread)? {
                SetTurn::On(next, more) => {
                    place = next;
                    keys = more;
                }
                SetTurn::Done(all) => return Ok(all),
            }
        }
    }
}
