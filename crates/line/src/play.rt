ghost use Rattle.std.specs.Prelude.{vec_len};
ghost use Rattle.line.specs.Rooms.{Blank, Room};

use crate::line::Line;
use key_record::answer::Reply;
use key_record::call::Call;
use line_parts::report::Report;

pub mod comparison;
mod room;
pub(crate) mod run;

// What a line answered, reported and wrote over a list of calls: the replies, the reports in order, and the
// bytes of the report lines, one behind another.
#[derive(Drop)]
pub struct Log {
    pub replies: Vec<Reply>,
    pub reports: Vec<Report>,
    pub lines: Vec<u8>,
}

// A line after a list of calls.
pub struct Played<P> {
    pub line: Line<P>,
    pub log: Log,
}

// A plan and a list of calls that no line has played yet, with an empty log that has room for what one will
// answer, report and write over them.
pub(crate) struct Side<P> {
    plan: P,
    calls: Vec<Call>,
    log: Log,
    ghost blank: { Blank log },
    ghost room: { Room log (vec_len calls) },
}
