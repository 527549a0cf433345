//! Reads the text of a map, and then commands for a keypad line, one to a line, and prints what each brings.
#![tactic(auto)]

use sale::session::sell;
use std::io;
use std::io::{Read, Write};

// Input past this many bytes is not read.
const MOST: u64 = 65536;

// Each program reads its input itself: a shared reader would be public, and no contract can pin what it gets.
fn main(rt: HostRuntime) -> io::Result<()> {
    let mut input = Vec::new(rt.alloc());
    rt.stdin().take(MOST).read_to_end(&mut input)?;
    let told = sell(rt.alloc(), &input)?;
    rt.stdout().write_all(&told)
}
