//! What is told of a text, of its map or its fault.
ghost use Rattle.std.specs.Prelude.{◌≡◌, take, IfOk, string_bytes};
ghost use Rattle.map_report.specs.Lines.{lines};
ghost use Rattle.map_report.specs.Reports.{refused, admitted, Reported, AllReported};

use crate::escape::{write_caret, write_excerpt};
use crate::line::first_line;
use crate::words::{admitted_line, cause_words};
use digit_map::fault::Fault;
use digit_map::map::Map;
use digit_map::read::read_map;
use fault_line::fault_line;
use std::alloc::{AllocError, Global};

// The first bytes of a text, or the whole of one that has no more.
fn front(text: &[u8], count: usize) -> &[u8]
    ensures { result.now ≡ take count text.now }
{
    text.get(..count).unwrap_or(text)
}

// Tells a fault, in a line and in words, and shows the text with a caret below the faulty byte.
pub fn refusal(heap: Global, text: &[u8], fault: Fault) -> Result<String, AllocError>
    ensures { IfOk result (λ s. string_bytes s ≡ refused text.now fault) }
{
    let mut out = fault_line(heap, fault)?;
    out.push_str(cause_words(fault.cause))?;
    out.push('\n')?;
    write_excerpt(&mut out, text)?;
    out.push('\n')?;
    write_caret(heap, &mut out, front(text, fault.offset))?;
    out.push('\n')?;
    Ok(out)
}

// Tells what a map has, and shows its text.
pub fn admission(heap: Global, text: &[u8], map: &Map) -> Result<String, AllocError>
    ensures { IfOk result (λ s. string_bytes s ≡ admitted text.now map.now) }
{
    let mut out = admitted_line(heap, map.timers(), map.alternatives(), map.positions())?;
    write_excerpt(&mut out, text)?;
    out.push('\n')?;
    Ok(out)
}

// Reads a text, and tells what came of it.
pub fn report(heap: Global, text: &[u8]) -> Result<String, AllocError>
    ensures { IfOk result (λ s. Reported text.now (string_bytes s)) }
{
    match read_map(text) {
        Ok(map) => admission(heap, text, &map),
        Err(fault) => refusal(heap, text, fault),
    }
}

// The reports on the lines of an input, one behind another.
pub fn report_lines(heap: Global, input: &[u8]) -> Result<String, AllocError>
    ensures { IfOk result (λ s. AllReported (lines input.now) (string_bytes s)) }
{
    let mut out = String::new(heap);
    // No `split_inclusive`: each line would have to be rid of its line feed.
    let mut rest = input;
    while let Some((line, after)) = first_line(rest) {
        let told = report(heap, line)?;
        out.push_str(told.as_str())?;
        rest = after;
    }
    Ok(out)
}
