//! Reads lines that keep a map, lots or a code, or that show a plan made of them, and prints what each gives.
#![tactic(auto)]

mod command;
mod kept;
mod make;
mod read;
mod run;
mod stop;
mod tell;

use crate::run::answer_lines;
use std::io;
use std::io::Read;

// Input past this many bytes is not read.
const MOST: u64 = 65536;

// Each program reads its input itself: a shared reader would be public, and no contract can pin what it gets.
fn main(rt: HostRuntime) -> io::Result<()> {
    let mut input = Vec::new(rt.alloc());
    rt.stdin().take(MOST).read_to_end(&mut input)?;
    let told = answer_lines(rt.alloc(), &input)?;
    rt.print(told.as_str())
}
