//! The events of a row, played on a line.
use key_record::answer::Progress;
use key_record::refusal::Refusal;
use keypad::letter::key_of;
use keypad::plan::Plan;
use line::line::Line;

// One event: the letter of a key that is pressed briefly, or `t`, by which the running timer expires.
fn give<P: Plan>(line: &mut Line<P>, event: u8) -> Result<Progress, Refusal> {
    if event == b't' {
        let (timer, _) = line.timer().ok_or(Refusal::NoTimer)?;
        return line.expire(timer);
    }
    let key = key_of(event).ok_or(Refusal::Key)?;
    line.key(key, 1)
}

// Plays events up to the report, and answers how many are left behind it. A refused one changes nothing.
pub fn play<P: Plan>(line: &mut Line<P>, events: &[u8]) -> usize {
    events
        .iter()
        .position(|event| give(line, *event) == Ok(Progress::Done))
        .map_or(0, |at| events.len() - at - 1)
}
