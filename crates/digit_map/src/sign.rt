ghost use Rattle.std.specs.Prelude.{◌≡◌, true};
ghost use Rattle.digit_map.specs.Bytes.{key_letter_lem, letter_key};
ghost use Rattle.digit_map.specs.Signs.{sign_of};

use keypad::key::Mark;

// The fields of a head, in their order: T, S, L and Z.
#[derive(Clone, Copy, PartialEq, Eq, PartialOrd, Ord)]
pub enum Field {
    Start,
    Short,
    Long,
    Hold,
}

// What a byte stands for outside sets and fields; the text's end counts as one.
#[derive(Clone, Copy)]
pub enum Sign {
    Keys(u16),
    Timer(Mark),
    Field(Field),
    Hold,
    SetOpen,
    Open,
    Close,
    Bar,
    Dot,
    End,
    Other,
}

// The key that a letter A to F writes, in either case. Its letter is a key's, so it answers no Option.
pub(crate) fn key_of_letter(letter: u8) -> u8
    requires { key_letter_lem letter ≡ true }
    ensures { result ≡ letter_key letter }
{
    letter.to_ascii_uppercase() - b'A' + 10
}

// `colon` says that the next byte that is no blank is a colon.
pub fn read_byte(byte: u8, colon: bool) -> Sign
    ensures { result ≡ sign_of byte colon }
{
    match byte {
        b'0'..=b'9' => Sign::Keys(1 << (byte - b'0')),
        b'A'..=b'F' | b'a'..=b'f' => Sign::Keys(1 << key_of_letter(byte)),
        b'x' | b'X' => Sign::Keys(0x3ff),
        b'T' | b't' if colon => Sign::Field(Field::Start),
        b'S' | b's' if colon => Sign::Field(Field::Short),
        b'L' | b'l' if colon => Sign::Field(Field::Long),
        b'Z' | b'z' if colon => Sign::Field(Field::Hold),
        b'S' | b's' => Sign::Timer(Mark::Short),
        b'L' | b'l' => Sign::Timer(Mark::Long),
        b'Z' | b'z' => Sign::Hold,
        b'[' => Sign::SetOpen,
        b'(' => Sign::Open,
        b')' => Sign::Close,
        b'|' => Sign::Bar,
        b'.' => Sign::Dot,
        _ => Sign::Other,
    }
}
