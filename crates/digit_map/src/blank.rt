ghost use Rattle.std.specs.Prelude.{◌≡◌, ◌+◌, ◌^◌, ◌<◌, ◌≤◌, ◌&&◌, length, not, find};
ghost use Rattle.std.specs.List.{prefix_len};
ghost use Rattle.digit_map.specs.Bytes.{blank, joint, field_letter};
ghost use Rattle.digit_map.specs.Tokens.{joint_ahead, colon_ahead, Next};
ghost use Rattle.digit_map.specs.Skips.{past_blanks_lem};
ghost use Rattle.digit_map.specs.Readers.{SamePart};

use crate::reader::Reader;
use crate::token::{Cursor, Token};

fn is_blank(byte: u8) -> bool
    ensures { result ≡ blank byte }
{
    matches!(byte, b' ' | b'\t' | b'\r' | b'\n')
}

fn is_joint(byte: u8) -> bool
    ensures { result ≡ joint byte }
{
    matches!(byte, b'(' | b')' | b'[' | b']' | b'|' | b',')
}

fn is_field_letter(byte: u8) -> bool
    ensures { result ≡ field_letter byte }
{
    matches!(byte, b'T' | b't' | b'S' | b's' | b'L' | b'l' | b'Z' | b'z')
}

// How many blanks a text begins with.
fn leading_blanks(text: &[u8]) -> usize
    ensures value { result ≡ prefix_len blank text.now }
    ensures bound { result ≤ length text.now }
{
    text.iter().take_while(|byte| is_blank(**byte)).count()
}

// The first byte that is no blank.
fn first_solid(text: &[u8]) -> Option<u8>
    ensures { result ≡ find (λ b. not (blank b)) text.now }
{
    text.iter().copied().find(|byte| !is_blank(*byte))
}

// Whether a joint is the first byte that is no blank.
fn joint_next(text: &[u8]) -> bool
    ensures { result ≡ joint_ahead text.now }
{
    first_solid(text).is_some_and(is_joint)
}

// Whether a colon is.
fn colon_next(text: &[u8]) -> bool
    ensures { result ≡ colon_ahead text.now }
{
    first_solid(text).is_some_and(|byte| byte == b':')
}

// Whether a byte begins a head field, with the text behind it.
fn begins_field(byte: u8, behind: &[u8]) -> bool
    ensures { result ≡ (field_letter byte && colon_ahead behind.now) }
{
    is_field_letter(byte) && colon_next(behind)
}

impl<'a> Reader<'a> {
    // Before the first byte of a part; `loose` says that blanks may stand there for what is before it.
    pub(crate) fn begin(text: &'a [u8], base: usize, loose: bool) -> Reader<'a>
        requires { base + length text.now < 2 ^ 64 }
        ensures text { result.text.now ≡ text.now }
        ensures base { result.base ≡ base }
        ensures cursor { result.cursor ≡ record { at = 0; loose = loose } }
    {
        let cursor = Cursor { at: 0, loose };
        Reader { text, base, cursor }
    }

    // The first index from the cursor on that has no blank, if the blanks before it may stand there.
    fn past_blanks(&self) -> Option<usize>
        ensures { result ≡ past_blanks_lem self.now.text.now self.now.cursor }
    {
        let Cursor { at, loose } = self.cursor;
        let rest = &self.text[at..];
        let blanks = leading_blanks(rest);
        (blanks == 0 || loose || joint_next(&rest[blanks..])).then_some(at + blanks)
    }

    // Takes the next token; the cursor moves behind it, and stays at a gap.
    pub(crate) fn next(&mut self) -> Token
        ensures same { SamePart self.old self.new }
        ensures reads { Next self.old.text.now self.old.base self.old.cursor result self.new.cursor }
    {
        let Some(n) = self.past_blanks() else {
            return Token::Gap(self.base + self.cursor.at);
        };
        let Some(&byte) = self.text.get(n) else {
            self.cursor = Cursor {
                at: n,
                loose: false,
            };
            return Token::End(self.base + n);
        };
        let field = begins_field(byte, &self.text[n + 1..]);
        self.cursor = Cursor {
            at: n + 1,
            loose: is_joint(byte),
        };
        Token::Byte(byte, field, self.base + n)
    }
}
