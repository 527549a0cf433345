//! Reads sales, each ended by a line of four equals signs, and prints what each prints and such a line.
#![tactic(auto)]

mod runs;

use crate::runs::run_all;
use std::io;
use std::io::{Read, Write};

// Input past this many bytes is not read. It is 1 MiB, since an input has many sales.
const MOST: u64 = 1048576;

// Each program reads its input itself: a shared reader would be public, and no contract can pin what it gets.
fn main(rt: HostRuntime) -> io::Result<()> {
    let mut input = Vec::new(rt.alloc());
    rt.stdin().take(MOST).read_to_end(&mut input)?;
    let printed = run_all(rt.alloc(), &input)?;
    rt.stdout().write_all(&printed)
}
