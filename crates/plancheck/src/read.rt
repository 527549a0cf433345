//! Keys, symbols and numbers as they are written.
ghost use Rattle.std.specs.Prelude.{ℕ, List, IfOk, MatchOption};
ghost use Rattle.std.specs.List.{AllZip};
ghost use Rattle.plancheck.specs.Letters.{CodeLetter, Begins, NoSymbol, Spells};
ghost use Rattle.plancheck.specs.Numbers.{Extends, Decimal, Numbers};

use keypad::key::Symbol;
use keypad::letter::key_of;
use std::alloc::{AllocError, Global};

// A number that is no key's. A plan is made over numbers and refuses this one, so an Option for each key
// would only be turned back into it.
const NO_KEY: u8 = 16;

// The symbol with which a text begins, and what stands behind it.
fn first_symbol(text: &[u8]) -> Option<(Symbol, &[u8])>
    ensures { MatchOption result (NoSymbol text.now) (λ x. Begins text.now x.0 x.1.now) }
{
    match text {
        [b'Z', letter, rest @ ..] => Some((Symbol::Long(key_of(*letter)?), rest)),
        [letter, rest @ ..] => Some((Symbol::Plain(key_of(*letter)?), rest)),
        [] => None,
    }
}

// The symbols of a row such as `12Z3`, or none if a letter is no key's or a Z has no key behind it.
pub fn read_row(heap: Global, text: &[u8]) -> Result<Option<Vec<Symbol>>, AllocError>
    ensures { IfOk result (λ o. MatchOption o ((ss : List Symbol) → Spells text.now ss → ⊥)
        (λ v. Spells text.now v.items)) }
{
    let mut row = Vec::new(heap);
    let mut rest = text;
    while let Some((symbol, after)) = first_symbol(rest) {
        row.push(symbol)?;
        rest = after;
    }
    Ok(rest.is_empty().then_some(row))
}

// What a code keeps of a letter: its key, or a number above all keys, which no plan takes.
fn code_key(letter: u8) -> u8
    ensures { CodeLetter letter result }
{
    key_of(letter).unwrap_or(NO_KEY)
}

// The keys of a code.
pub fn read_code(heap: Global, text: &[u8]) -> Result<Vec<u8>, AllocError>
    ensures { IfOk result (λ v. AllZip CodeLetter text.now v.items) }
{
    text.iter().map(|letter| code_key(*letter)).collect(heap)
}

// The number with one more digit behind it, or none if the letter is no digit or 32 bits do not hold it.
fn with_digit(number: u32, letter: u8) -> Option<u32>
    ensures { MatchOption result ((n : ℕ) → Extends number letter n → ⊥) (λ n. Extends number letter n) }
{
    let digit = char::from(letter).to_digit(10)?;
    number.checked_mul(10)?.checked_add(digit)
}

// The number that a word is in decimal, or none if it is not written so or 32 bits do not hold it.
fn number_of(word: &[u8]) -> Option<u32>
    ensures { MatchOption result ((n : ℕ) → Decimal word.now n → ⊥) (λ n. Decimal word.now n) }
{
    if word.is_empty() {
        return None;
    }
    // No `try_fold`: tried with no proof file, and the check alone did not prove it.
    let mut number = 0;
    for letter in word {
        number = with_digit(number, *letter)?;
    }
    Some(number)
}

// The numbers of a text with single blanks between them, or none if it is written in another way.
pub fn read_numbers(heap: Global, text: &[u8]) -> Result<Option<Vec<u32>>, AllocError>
    ensures { IfOk result (λ o. MatchOption o ((ns : List ℕ) → Numbers text.now ns → ⊥)
        (λ v. Numbers text.now v.items)) }
{
    let mut numbers = Vec::new(heap);
    for word in text.split(|letter| *letter == b' ') {
        let Some(number) = number_of(word) else {
            return Ok(None);
        };
        numbers.push(number)?;
    }
    Ok(Some(numbers))
}
