//! What each line of an input gives.
ghost use Rattle.map_report.specs.Lines.{lines};
ghost use Rattle.std.specs.Prelude.{IfOk, string_bytes};
ghost use Rattle.plancheck.specs.Outcomes.{OutcomeTold, ShowLine};
ghost use Rattle.plancheck.specs.Replies.{Gives};
ghost use Rattle.plancheck.specs.Stores.{store_of, fresh};
ghost use Rattle.plancheck.specs.Transcripts.{Answers, Transcript, Determined};

use crate::command::{Command, command_of};
use crate::kept::{Kept, unknown};
use crate::make::make_of;
use crate::read::read_row;
use crate::stop::Stop;
use crate::tell::tell;
use map_report::escape::write_text;
use map_report::line::{first_line, split_once};
use std::alloc::{AllocError, Global};

// The lines of the keys, or why no plan is made.
fn outcome(heap: Global, told: Result<String, Stop>) -> Result<String, AllocError>
    ensures { IfOk result (λ s. OutcomeTold told (string_bytes s)) }
{
    told.or_else(|stop| stop.told(heap))
}

// Shows a plan: the line itself, and then what came of the row.
fn show(kept: &Kept, line: &[u8], text: &[u8]) -> Result<String, AllocError>
    ensures { IfOk result (λ s. ShowLine (store_of kept.now) line.now
        text.now (string_bytes s)) }
{
    let heap = kept.heap;
    let Some((name, keys)) = split_once(text, b' ') else {
        return unknown(heap);
    };
    let Some(make) = make_of(name) else {
        return unknown(heap);
    };
    let Some(row) = read_row(heap, keys)? else {
        return unknown(heap);
    };
    let mut out = String::new(heap);
    write_text(&mut out, line)?;
    out.push('\n')?;
    let lines = outcome(heap, tell(kept, make, &row))?;
    out.push_str(lines.as_str())?;
    Ok(out)
}

// What one line gives.
fn answer(kept: &mut Kept, line: &[u8]) -> Result<String, AllocError>
    ensures { Gives (Answers (store_of kept.old) line.now) kept.old result
        kept.new }
{
    let Some((word, text)) = split_once(line, b' ') else {
        return unknown(kept.heap);
    };
    let Some(command) = command_of(word) else {
        return unknown(kept.heap);
    };
    match command {
        Command::Map => kept.keep_map(text),
        Command::Lots => kept.keep_lots(text),
        Command::Code => kept.keep_code(text),
        Command::Show => show(kept, line, text),
    }
}

// What the lines of an input give, one behind another.
pub fn answer_lines(heap: Global, input: &[u8]) -> Result<String, AllocError>
    ensures printed { IfOk result (λ s. Transcript fresh (lines input.now) (string_bytes s)) }
    ensures only { Determined (lines input.now) }
{
    let mut kept = Kept::new(heap);
    let mut out = String::new(heap);
    // No `split_inclusive`: each line would have to be rid of its line feed.
    let mut rest = input;
    while let Some((line, after)) = first_line(rest) {
        let told = answer(&mut kept, line)?;
        out.push_str(told.as_str())?;
        rest = after;
    }
    Ok(out)
}
