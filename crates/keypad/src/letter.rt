//! Keys as they are written.
ghost use Rattle.std.specs.Prelude.{◌≡◌, MatchOption};
ghost use Rattle.keypad.specs.Letters.{letter_of, Letter, NoLetter};

// The letter of a key, or a question mark for a number that is no key's.
pub fn key_letter(key: u8) -> u8
    ensures { result ≡ letter_of key }
{
    match key {
        0..=9 => b'0' + key,
        10..=15 => b'A' + (key - 10),
        _ => b'?',
    }
}

// The key that a letter stands for: 0 to 9 and A to F.
pub fn key_of(letter: u8) -> Option<u8>
    ensures { MatchOption result (NoLetter letter) (λ key. Letter letter key) }
{
    match letter {
        b'0'..=b'9' => Some(letter - b'0'),
        b'A'..=b'F' => Some(letter - b'A' + 10),
        _ => None,
    }
}
