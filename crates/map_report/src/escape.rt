//! Texts written so that a person can read them.
ghost use Rattle.std.specs.Prelude.{◌≡◌, ◌<◌};
ghost use Rattle.map_report.specs.Writes.{Adds};
ghost use Rattle.map_report.specs.Escapes.{hex, numbered, escape, shown, excerpt, caret};

use keypad::letter::key_letter;
use std::alloc::{AllocError, Global};

// The digit of a number below 16, which is the letter of a key.
fn hex_digit(value: u8) -> char
    requires { value < 16 }
    ensures value { result ≡ hex value }
    ensures bound { result < 128 }
{
    char::from(key_letter(value))
}

// Writes a byte by its number. Its digits are pushed: a `{byte:02X}` takes three times the instructions.
fn write_number(out: &mut String, byte: u8) -> Result<(), AllocError>
    ensures { Adds out.old result (numbered byte) out.new }
{
    out.push_str("\\x")?;
    out.push(hex_digit(byte / 16))?;
    out.push(hex_digit(byte % 16))
}

// Writes a byte so that a person can read it. Where memory lacks, nothing is said of what was written.
// These writers are functions: a wrapped text with a Display would stand beside them and be no plainer.
pub fn write_byte(out: &mut String, byte: u8) -> Result<(), AllocError>
    ensures { Adds out.old result (escape byte) out.new }
{
    match byte {
        b'\t' => out.push_str("\\t"),
        b'\r' => out.push_str("\\r"),
        b'\\' => out.push_str("\\\\"),
        b' '..=b'~' => out.push(char::from(byte)),
        _ => write_number(out, byte),
    }
}

// Writes each byte of a text.
pub fn write_text(out: &mut String, text: &[u8]) -> Result<(), AllocError>
    ensures { Adds out.old result (shown text.now) out.new }
{
    for byte in text {
        write_byte(out, *byte)?;
    }
    Ok(())
}

// Writes a text. One that is longer than a map can be is cut behind its first 64 bytes.
#[tactic(auto, unfolding(crate::specs::Escapes::excerpt))]
pub fn write_excerpt(out: &mut String, text: &[u8]) -> Result<(), AllocError>
    ensures { Adds out.old result (excerpt text.now) out.new }
{
    if text.len() <= 2048 {
        return write_text(out, text);
    }
    write_text(out, &text[0..64])?;
    out.push_str(" ...")
}

// Writes a caret that stands below the first byte behind `before`, however wide that is shown.
pub fn write_caret(heap: Global, out: &mut String, before: &[u8]) -> Result<(), AllocError>
    ensures { Adds out.old result (caret before.now) out.new }
{
    let mut margin = String::new(heap);
    write_text(&mut margin, before)?;
    let width = margin.len();
    write!(out, "{:width$}^", "")
}
