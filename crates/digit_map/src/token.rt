ghost use Rattle.std.specs.Prelude.{◌≡◌};
ghost use Rattle.digit_map.specs.Reads.{byte_at, sign_at};

use crate::fault::{Cause, Fault};
use crate::sign::{Sign, read_byte};

// A byte of the text with its blanks taken out: the byte, whether the next byte is a colon, and its offset.
// The first blank of a run that may not stand where it does is a token too, and so is the text's end.
#[derive(Clone, Copy)]
pub enum Token {
    Byte(u8, bool, usize),
    Gap(usize),
    End(usize),
}

// Where to read on in a part of the text: the index of the next byte, and whether blanks may stand there for
// what is before it.
#[derive(Clone, Copy)]
pub struct Cursor {
    pub at: usize,
    pub loose: bool,
}

impl Token {
    // Its byte inside a set or a field, which the text's end leaves unfinished.
    pub(crate) fn byte(self, alternative: u8, unfinished: Fault) -> Result<u8, Fault>
        ensures { result ≡ byte_at alternative unfinished self }
    {
        match self {
            Token::Byte(byte, _, _) => Ok(byte),
            Token::Gap(at) => Err(Cause::Byte.at(at, alternative)),
            Token::End(_) => Err(unfinished),
        }
    }

    // Its sign outside sets and fields, and its offset.
    pub(crate) fn sign(self, alternative: u8) -> Result<(Sign, usize), Fault>
        ensures { result ≡ sign_at alternative self }
    {
        match self {
            Token::Byte(byte, colon, at) => Ok((read_byte(byte, colon), at)),
            Token::Gap(at) => Err(Cause::Byte.at(at, alternative)),
            Token::End(at) => Ok((Sign::End, at)),
        }
    }
}
