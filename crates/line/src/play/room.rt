//! Room in a log.
ghost use Rattle.std.specs.Prelude.{IfOk};
ghost use Rattle.line.specs.Rooms.{Blank, Room};

use crate::play::Log;
use std::alloc::{AllocError, Global};

impl Log {
    // An empty log with room for so many calls: for each a reply, a report and 85 bytes, which no report line
    // passes. No memory has room for a number of bytes that does not fit.
    pub(crate) fn with_room(heap: Global, calls: usize) -> Result<Log, AllocError>
        ensures blank { IfOk result (λ l. Blank l) }
        ensures room { IfOk result (λ l. Room l calls) }
    {
        Ok(Log {
            replies: Vec::with_capacity(heap, calls)?,
            reports: Vec::with_capacity(heap, calls)?,
            lines: Vec::with_capacity(heap, calls.saturating_mul(85))?,
        })
    }
}
