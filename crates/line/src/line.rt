ghost use Rattle.std.specs.Prelude.{◌≤◌, length};
ghost use Rattle.line_parts.specs.Queued.{queued};
ghost use Rattle.line.specs.Limits.{most_reports, most_ahead};

use key_record::ending::Phase;
use key_record::settings::Settings;
use line_parts::ahead::Ahead;
use line_parts::dial::Dial;

pub mod calls;
pub mod close;
mod entry;
pub mod shown;

// A line: its number, its plan, where it stands, what it was armed with last, the symbols pressed since, the
// keys ahead, and how many reports it has brought. An open line can still report, and has no key ahead.
pub struct Line<P> {
    number: u32,
    plan: P,
    phase: Phase,
    settings: Settings,
    dial: Dial,
    ahead: Ahead,
    count: u32,
    ghost few: { count ≤ most_reports phase },
    ghost clear: { length (queued ahead) ≤ most_ahead phase },
}
