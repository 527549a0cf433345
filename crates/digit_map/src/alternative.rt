ghost use Rattle.std.specs.Prelude.{◌≡◌, ◌+◌, ◌^◌, ◌<◌, ◌≤◌, [], length};
ghost use Rattle.digit_map.specs.Nodes.{count_positions, count_ends};
ghost use Rattle.digit_map.specs.Drafts.{drafted};
ghost use Rattle.digit_map.specs.Limits.{sale};
ghost use Rattle.digit_map.specs.Acts.{acts};
ghost use Rattle.digit_map.specs.Rooms.{Room, RoomFor};
ghost use Rattle.digit_map.specs.Reads.{AlternativeRead, ClosedRead, AlternativesRead};
ghost use Rattle.digit_map.specs.Readers.{SamePart, placed};

use crate::draft::Draft;
use crate::fault::{Cause, Fault};
use crate::node::Position;
use crate::progress::{Act, Frame, Last, Progress};
use crate::reader::Reader;
use crate::sign::Sign;

// What a sign does, where `positions` positions stand before it. A Z that waits for its position is judged
// first, since all but keys, a set and a field put it at fault.
fn act(
    frame: Frame,
    positions: usize,
    progress: Progress,
    sign: Sign,
    at: usize,
) -> Result<Act, Fault>
    requires { Room frame.number positions progress.last }
    ensures value { result ≡ acts sale frame positions progress sign at }
    ensures room { RoomFor frame.number positions result }
{
    let number = frame.number;
    let in_number = number <= 64;
    let has_room = in_number && positions < 255;
    let placed = progress.go_on(at, progress.mark, false, Last::Position);
    match (progress.last, sign) {
        (Last::Hold(_), Sign::Keys(keys)) => Ok(Act::Put(Position::of(keys, true), placed)),
        (Last::Hold(_), Sign::SetOpen) => Ok(Act::OpenSet(true)),
        (_, Sign::Field(_)) => Err(Cause::Head.at(at, number)),
        (Last::Hold(z), _) => Err(Cause::Affix.at(z, number)),
        (_, Sign::Keys(keys)) if has_room => Ok(Act::Put(Position::of(keys, false), placed)),
        (_, Sign::SetOpen) if has_room => Ok(Act::OpenSet(false)),
        (_, Sign::Hold) if has_room => Ok(Act::Go(progress.go_on(
            at,
            progress.mark,
            progress.marked,
            Last::Hold(at),
        ))),
        (_, Sign::Timer(mark)) if in_number => {
            Ok(Act::Go(progress.go_on(at, mark, true, Last::Mark)))
        }
        (_, Sign::Keys(_) | Sign::SetOpen | Sign::Hold | Sign::Timer(_)) => {
            Err(Cause::Excess.at(at, number))
        }
        (_, Sign::Dot) => progress.dot(number, at),
        (_, Sign::Bar | Sign::Close) => progress.halt(number, at, frame.bracketed, true),
        (_, Sign::End) => progress.halt(number, at, !frame.bracketed, !frame.bracketed),
        (_, Sign::Open | Sign::Other) => Err(Cause::Byte.at(at, number)),
    }
}

impl Reader<'_> {
    // Reads an alternative and adds its places to the draft; answers the sign that ended it.
    fn alternative(&mut self, frame: Frame, draft: &mut Draft) -> Result<Sign, Fault>
        requires positions { count_positions (drafted draft.old) ≤ 255 }
        requires ends { (count_ends (drafted draft.old) + 1 ≡ frame.number) × (frame.number ≤ 65) }
        ensures same { SamePart self.old self.new }
        ensures reads { AlternativeRead self.old.text.now self.old.base self.old.cursor frame draft.old
            draft.new (placed result self.new.cursor) }
        ensures room { count_positions (drafted draft.new) ≤ 255 }
    {
        let mut progress = Progress::fresh();
        'signs: loop {
            let (sign, at) = self.next().sign(frame.number)?;
            let turn = act(frame, draft.positions(), progress, sign, at)?;
            match turn {
                Act::Go(next) => progress = next,
                Act::Put(position, next) => {
                    draft.put(position, progress.mark, progress.marked);
                    progress = next;
                }
                Act::AddDot(next) => {
                    draft.dot_last();
                    progress = next;
                }
                Act::OpenSet(long) => {
                    let keys = self.set(at, frame.number)?;
                    draft.put(Position::of(keys, long), progress.mark, progress.marked);
                    progress = progress.go_on(at, progress.mark, false, Last::Position);
                }
                Act::Halt => {
                    draft.end(progress.mark, progress.marked);
                    return Ok(sign);
                }
            }
        }
    }

    // Behind the closing round bracket only the text's end may stand.
    fn close(mut self, alternative: u8) -> Result<(), Fault>
        ensures { ClosedRead self.entry.text.now self.entry.base self.entry.cursor alternative result }
    {
        let (sign, at) = self.next().sign(alternative)?;
        match sign {
            Sign::End => Ok(()),
            Sign::Field(_) => Err(Cause::Head.at(at, alternative)),
            Sign::Dot => Err(Cause::Affix.at(at, alternative)),
            _ => Err(Cause::Byte.at(at, alternative)),
        }
    }
}

// Reads the part of the text behind the head and adds its alternatives to the draft; `loose` says that a
// comma stands before it.
pub(crate) fn read_alternatives(
    text: &[u8],
    base: usize,
    loose: bool,
    draft: &mut Draft,
) -> Result<(), Fault>
    requires fits { base + length text.now < 2 ^ 64 }
    requires empty { drafted draft.old ≡ [] }
    ensures { AlternativesRead text.now base loose draft.old draft.new result }
{
    let start = Reader::begin(text, base, loose);
    let mut ahead = start;
    let (sign, _) = ahead.next().sign(1)?;
    let (bracketed, mut reader) = match sign {
        Sign::Open => (true, ahead),
        _ => (false, start),
    };
    let mut frame = Frame {
        bracketed,
        number: 1,
    };
    'alternatives: loop {
        match reader.alternative(frame, draft)? {
            Sign::Bar => {
                frame = Frame {
                    bracketed: true,
                    number: frame.number + 1,
                };
            }
            Sign::Close => return reader.close(frame.number),
            _ => return Ok(()),
        }
    }
}
