//! All that a line has shown, as it is told.
ghost use Rattle.line_parts.specs.Texts.{text_of};
ghost use Rattle.std.specs.Prelude.{◌≡◌, ℕ, List, IfOk};
ghost use Rattle.std.specs.Fn.{FnReturnsAt};
ghost use Rattle.play_report.specs.Words.{told_all, ahead_line};
ghost use Rattle.play_report.specs.Sides.{Adds, Tells, shown_by, side_words, verdict_line, sides_words};

use crate::side::Side;
use crate::words::{entry_text, key_text, reply_text};
use keypad::key::KeyEvent;
use line_parts::report::Report;
use line_parts::text::Text;
use std::alloc::{AllocError, Global};

// Adds a text.
fn add_text(out: &mut Vec<u8>, text: Text) -> Result<(), AllocError>
    ensures { Adds out.old result (text_of text) out.new }
{
    out.extend_from_slice(text.as_bytes())
}

// Adds the text of each item, one behind another.
fn add_each<T, F: Fn(&T) -> Text>(out: &mut Vec<u8>, items: &[T], text: F) -> Result<(), AllocError>
    requires { F.IsAlwaysCallable text }
    ensures { (words : T → List ℕ) → Tells (FnReturnsAt F.Fn text) words
        → Adds out.old result (told_all words items.now) out.new }
{
    for item in items {
        add_text(out, text(item))?;
    }
    Ok(())
}

// Adds the line of the keys ahead.
fn add_ahead(out: &mut Vec<u8>, events: &[KeyEvent]) -> Result<(), AllocError>
    ensures { Adds out.old result (ahead_line events.now) out.new }
{
    out.extend_from_slice(b"ahead")?;
    add_each(out, events, |event| key_text(*event))?;
    out.extend_from_slice(b"\n")
}

// Adds all that a line has shown: its replies, its reports, what it wrote, its open entry and its keys ahead.
pub fn add_side(out: &mut Vec<u8>, side: &Side) -> Result<(), AllocError>
    ensures { Adds out.old result (side_words (shown_by side.now)) out.new }
{
    add_each(out, &side.replies, |reply| reply_text(*reply))?;
    out.extend_from_slice(b"reports\n")?;
    add_each(out, &side.reports, Report::text)?;
    out.extend_from_slice(b"written\n")?;
    out.extend_from_slice(&side.lines)?;
    add_text(out, entry_text(side.entry))?;
    add_ahead(out, side.ahead.events())
}

// The line of the verdict.
fn verdict(same: bool) -> &'static [u8]
    ensures { result.now ≡ verdict_line same }
{
    if same { b"alike\n" } else { b"different\n" }
}

// Two sides as they are told, one behind the other, and the verdict.
fn joined(heap: Global, one: &[u8], other: &[u8]) -> Result<Vec<u8>, AllocError>
    ensures { IfOk result (λ v. v.items ≡ sides_words one.now other.now) }
{
    let mut out = Vec::new(heap);
    out.extend_from_slice(b"first\n")?;
    out.extend_from_slice(one)?;
    out.extend_from_slice(b"second\n")?;
    out.extend_from_slice(other)?;
    out.extend_from_slice(verdict(one == other))?;
    Ok(out)
}

// All that two lines have shown, and whether they are told alike.
pub fn tell_sides(heap: Global, first: &Side, second: &Side) -> Result<Vec<u8>, AllocError>
    ensures { IfOk result (λ v. v.items ≡ sides_words (side_words (shown_by first.now))
        (side_words (shown_by second.now))) }
{
    let mut one = Vec::new(heap);
    add_side(&mut one, first)?;
    let mut other = Vec::new(heap);
    add_side(&mut other, second)?;
    joined(heap, &one, &other)
}
