ghost use Rattle.std.specs.Prelude.{◌≡◌, ◌+◌, ◌^◌, ◌<◌, ◌≤◌, length};
ghost use Rattle.digit_map.specs.Fields.{least_behind, fits, timed, field_turn, SoundDigits, SoundField};
ghost use Rattle.digit_map.specs.Reads.{FieldRead, HeadRead, next_field};
ghost use Rattle.digit_map.specs.Readers.{SamePart, placed};

use crate::fault::{Cause, Fault};
use crate::reader::Reader;
use crate::sign::{Field, Sign, read_byte};
use crate::token::Token;
use keypad::timers::{Timers, standard_timers};

// How far a field is read: behind its letter, its colon, its first digit, its second.
#[derive(Clone, Copy)]
pub enum Digits {
    Letter,
    Colon,
    One(u8),
    Two(u8),
}

// What a byte that a field may have does to its reader. std's ControlFlow would call them Continue and Break.
#[derive(Clone, Copy)]
pub enum FieldTurn {
    On(Digits),
    Done(u8),
}

// Only T may be 0.
fn may_be(field: Field, value: u8) -> bool
    ensures { result ≡ fits field value }
{
    field == Field::Start || value > 0
}

// The timers with one set.
fn with_field(timers: Timers, field: Field, value: u8) -> Timers
    ensures { result ≡ timed timers field value }
{
    match field {
        Field::Start => Timers {
            start: value,
            ..timers
        },
        Field::Short => Timers {
            short: value,
            ..timers
        },
        Field::Long => Timers {
            long: value,
            ..timers
        },
        Field::Hold => Timers {
            hold: value,
            ..timers
        },
    }
}

// What a byte does to a field's reader: none for a byte that no field has there.
fn turn_field(field: Field, digits: Digits, byte: u8) -> Option<FieldTurn>
    requires { SoundDigits digits }
    ensures value { result ≡ field_turn field digits byte }
    ensures sound { SoundField result }
{
    match (digits, byte) {
        (Digits::Letter, b':') => Some(FieldTurn::On(Digits::Colon)),
        (Digits::Colon, b'0'..=b'9') => Some(FieldTurn::On(Digits::One(byte - b'0'))),
        (Digits::One(tens), b'0'..=b'9') => {
            let both = 10 * tens + (byte - b'0');
            may_be(field, both).then_some(FieldTurn::On(Digits::Two(both)))
        }
        (Digits::One(only), b',') => may_be(field, only).then_some(FieldTurn::Done(only)),
        (Digits::Two(both), b',') => Some(FieldTurn::Done(both)),
        _ => None,
    }
}

impl Reader<'_> {
    // The value of the field whose letter has the offset `letter`, from behind it on to its comma.
    fn field(&mut self, field: Field, letter: usize) -> Result<u8, Fault>
        ensures same { SamePart self.old self.new }
        ensures reads { FieldRead self.old.text.now self.old.base self.old.cursor field letter
            (placed result self.new.cursor) }
    {
        let ill_formed = Cause::Head.at(letter, 1);
        let mut digits = Digits::Letter;
        'bytes: loop {
            let byte = self.next().byte(1, ill_formed)?;
            match turn_field(field, digits, byte).ok_or(ill_formed)? {
                FieldTurn::On(next) => digits = next,
                FieldTurn::Done(value) => return Ok(value),
            }
        }
    }
}

// The field that a token begins, with its letter's offset, if it belongs behind the last one.
fn field_from(token: Token, last: Option<Field>) -> Option<(Field, usize)>
    ensures { result ≡ next_field (least_behind last) token }
{
    let Token::Byte(byte, colon, at) = token else {
        return None;
    };
    match read_byte(byte, colon) {
        Sign::Field(field) if last < Some(field) => Some((field, at)),
        _ => None,
    }
}

// The timers that the head sets, and the index behind it, 0 where there is no head.
pub(crate) fn read_head(text: &[u8]) -> Result<(Timers, usize), Fault>
    ensures { HeadRead text.now result }
{
    let mut timers = standard_timers();
    let mut last = None;
    let mut reader = Reader::begin(text, 0, false);
    'fields: loop {
        let mut ahead = reader;
        let Some((field, letter)) = field_from(ahead.next(), last) else {
            return Ok((timers, reader.cursor.at));
        };
        let value = ahead.field(field, letter)?;
        timers = with_field(timers, field, value);
        last = Some(field);
        reader = ahead;
    }
}
