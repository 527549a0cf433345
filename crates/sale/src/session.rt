//! A whole sale: what an input prints.
ghost use Rattle.std.specs.Prelude.{◌≡◌, ℕ, IfOk};
ghost use Rattle.key_record.specs.Record.{start};
ghost use Rattle.key_record.specs.States.{made_with};
ghost use Rattle.line.specs.Lines.{state_of};
ghost use Rattle.map_report.specs.Lines.{lines};
ghost use Rattle.sale.specs.Sales.{Sold, SoldBy};
ghost use Rattle.sale.specs.Transcripts.{Transcript};

use crate::command::obey;
use digit_map::read::read_map;
use fault_line::fault_line;
use keypad::plan::Plan;
use keypad::timers::Timers;
use line::line::Line;
use map_plan::plan::MapPlan;
use map_report::line::first_line;
use std::alloc::{AllocError, Global};

// What the commands of an input print, one to a line. On a line straight from its making it is what the
// record of keys of that line tells.
pub fn obey_lines<P: Plan>(
    heap: Global,
    line: &mut Line<P>,
    timers: Timers,
    input: &[u8],
) -> Result<Vec<u8>, AllocError>
    ensures { IfOk result (λ out. (n : ℕ) → state_of line.old ≡ made_with n
        → Transcript (P.Plan.whole line.old.plan) timers (start n) (lines input.now) out.items) }
{
    let mut memory = [0; 85];
    let mut out = Vec::new(heap);
    let mut rest = input;
    // No `split_inclusive`: each line would have to be rid of its line feed.
    while let Some((bytes, after)) = first_line(rest) {
        if let Ok(length) = obey(line, timers, bytes, &mut memory) {
            out.extend_from_slice(&memory[0..length])?;
        }
        rest = after;
    }
    Ok(out)
}

// What a sale by the text of a map prints, with commands for a line with the number 1. A map that is refused
// prints its fault, and nothing more.
fn sell_by(heap: Global, text: &[u8], commands: &[u8]) -> Result<Vec<u8>, AllocError>
    ensures { IfOk result (λ out. SoldBy text.now (lines commands.now)
        out.items) }
{
    match read_map(text) {
        Ok(map) => {
            let timers = map.timers();
            let mut line = Line::new(1, MapPlan::new(map));
            let out = obey_lines(heap, &mut line, timers, commands);
            let _plan = line.into_plan();
            out
        }
        Err(fault) => Ok(fault_line(heap, fault)?.into_bytes()),
    }
}

// What an input prints: its first line is the text of a map, and the others are commands.
pub fn sell(heap: Global, input: &[u8]) -> Result<Vec<u8>, AllocError>
    ensures { IfOk result (λ out. Sold input.now out.items) }
{
    let (text, commands) = first_line(input).unwrap_or((input, input));
    sell_by(heap, text, commands)
}
