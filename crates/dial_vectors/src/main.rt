//! Reads rows of a map and events, and prints each row with what a line reports and how many events are left.
#![tactic(auto)]

mod escape;
mod play;
mod row;

use crate::row::tell_rows;
use std::io;
use std::io::{Read, Write};

// Input past this many bytes is not read.
const MOST: u64 = 65536;

// Each program reads its input itself: a shared reader would be public, and no contract can pin what it gets.
fn main(rt: HostRuntime) -> io::Result<()> {
    let mut input = String::new(rt.alloc());
    rt.stdin().take(MOST).read_to_string(&mut input)?;
    let told = tell_rows(rt.alloc(), input.as_str())?;
    rt.stdout().write_all(&told)
}
