//! Rows of a map and events, and what is told of each.
use crate::escape::unescape;
use crate::play::play;
use digit_map::map::Map;
use digit_map::read::read_map;
use key_record::settings::{Disposition, Procedure, Settings};
use line::line::Line;
use line_parts::report::timer_letter;
use map_plan::plan::MapPlan;
use map_report::line::first_line;
use std::alloc::{AllocError, Global};

// Writes the report line of a line that is done, without its line feed, or which timer the line waits for.
fn write_verdict(out: &mut Vec<u8>, line: &mut Line<MapPlan>) -> Result<(), AllocError> {
    let mut memory = [0; 85];
    if let Ok(length) = line.close(&mut memory) {
        if let Some((report, _)) = first_line(&memory[0..length]) {
            out.extend_from_slice(report)?;
        }
        return Ok(());
    }
    out.extend_from_slice(b"wait")?;
    if let Some((timer, _)) = line.timer() {
        out.extend_from_slice(&[b' ', timer_letter(timer)])?;
    }
    Ok(())
}

// Plays events on a line that is armed in the base procedure. Writes the verdict and how many events are left.
fn judge(heap: Global, out: &mut Vec<u8>, map: Map, events: &[u8]) -> Result<(), AllocError> {
    let mut line = Line::new(1, MapPlan::new(map));
    let _ = line.arm(Settings {
        procedure: Procedure::Base,
        disposition: Disposition::Keep,
        timers: map.timers(),
    });
    let left = play(&mut line, events);
    let written = write_verdict(out, &mut line);
    let _plan = line.into_plan();
    written?;
    let number = format!(in heap; "\t{left}\n")?;
    out.extend_from_slice(number.as_bytes())
}

// Writes a row, its verdict and how many events are left. A row without a tab or without a map is left out.
fn tell_row(heap: Global, out: &mut Vec<u8>, row: &str) -> Result<(), AllocError> {
    let Some((text, events)) = row.split_once('\t') else {
        return Ok(());
    };
    let Ok(map) = read_map(&unescape(heap, text.as_bytes())?) else {
        return Ok(());
    };
    out.extend_from_slice(row.as_bytes())?;
    out.extend_from_slice(b"\t")?;
    judge(heap, out, map, events.as_bytes())
}

// What is told of the rows of an input, one to a line.
pub fn tell_rows(heap: Global, input: &str) -> Result<Vec<u8>, AllocError> {
    let mut out = Vec::new(heap);
    for row in input.lines() {
        tell_row(heap, &mut out, row)?;
    }
    Ok(out)
}
