//! Reads map texts, one to a line, and tells of each what it has or what is wrong with it.
#![tactic(auto)]

use map_report::report::report_lines;
use std::io;
use std::io::Read;

// Input past this many bytes is not read.
const MOST: u64 = 65536;

// Each program reads its input itself: a shared reader would be public, and no contract can pin what it gets.
fn main(rt: HostRuntime) -> io::Result<()> {
    let mut input = Vec::new(rt.alloc());
    rt.stdin().take(MOST).read_to_end(&mut input)?;
    let told = report_lines(rt.alloc(), &input)?;
    rt.print(told.as_str())
}
