//! Commands as they are written.
ghost use Rattle.std.specs.Prelude.{◌≡◌, [], ◌∷◌};
ghost use Rattle.key_record.specs.Letters.{timer_letter_lem};
ghost use Rattle.commands.specs.Written.{Finds, Writes, Digit, procedure_letter, disposition_letter};

use crate::command::Command;
use key_record::settings::{Disposition, Procedure};
use key_record::timer::Timer;
use keypad::key::KeyEvent;
use keypad::letter::key_of;

// The procedure that a letter stands for. As a TryFrom it would stand beside the enum, in key_record, with an error
// that says no more than None; so with the next two.
fn procedure_of(letter: u8) -> Option<Procedure>
    ensures { Finds (λ p. letter ≡ procedure_letter p) result }
{
    match letter {
        b'b' => Some(Procedure::Base),
        b's' => Some(Procedure::Shortest),
        _ => None,
    }
}

// What a letter says of a key that fits nowhere.
fn disposition_of(letter: u8) -> Option<Disposition>
    ensures { Finds (λ d. letter ≡ disposition_letter d) result }
{
    match letter {
        b'k' => Some(Disposition::Keep),
        b'd' => Some(Disposition::Drop),
        _ => None,
    }
}

// The timer that a letter stands for.
fn timer_of(letter: u8) -> Option<Timer>
    ensures { Finds (λ t. letter ≡ timer_letter_lem t) result }
{
    match letter {
        b'T' => Some(Timer::Start),
        b'S' => Some(Timer::Short),
        b'L' => Some(Timer::Long),
        _ => None,
    }
}

// The number that a digit stands for. `to_digit` would answer a u32, which had to be narrowed.
fn digit_of(letter: u8) -> Option<u8>
    ensures { Finds (Digit letter) result }
{
    match letter {
        b'0'..=b'9' => Some(letter - b'0'),
        _ => None,
    }
}

// The arming that two letters write.
fn read_arming(procedure: u8, disposition: u8) -> Option<Command>
    ensures { Finds (Writes (97 ∷ procedure ∷ disposition ∷ [])) result }
{
    Some(Command::Arm(procedure_of(procedure)?, disposition_of(disposition)?))
}

// The key without a duration that a letter writes.
fn read_tap(letter: u8) -> Option<Command>
    ensures { Finds (Writes (107 ∷ letter ∷ [])) result }
{
    let key = key_of(letter)?;
    Some(Command::Key(KeyEvent { key, tenths: 1 }))
}

// The key that a letter writes, with its duration in two digits.
fn read_hold(letter: u8, tens: u8, units: u8) -> Option<Command>
    ensures { Finds (Writes (107 ∷ letter ∷ tens ∷ units ∷ [])) result }
{
    let key = key_of(letter)?;
    let tenths = u16::from(10 * digit_of(tens)? + digit_of(units)?);
    Some(Command::Key(KeyEvent { key, tenths }))
}

// The expiry that a timer's letter writes.
fn read_expiry(letter: u8) -> Option<Command>
    ensures { Finds (Writes (101 ∷ letter ∷ [])) result }
{
    Some(Command::Expire(timer_of(letter)?))
}

// The command that bytes write.
pub fn read_command(bytes: &[u8]) -> Option<Command>
    ensures { Finds (Writes bytes.now) result }
{
    match bytes {
        [b'a', procedure, disposition] => read_arming(*procedure, *disposition),
        [b'k', letter] => read_tap(*letter),
        [b'k', letter, tens, units] => read_hold(*letter, *tens, *units),
        [b'e', letter] => read_expiry(*letter),
        [b'c'] => Some(Command::Close),
        _ => None,
    }
}
