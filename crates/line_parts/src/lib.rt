//! What a line is made of: its dial string, its keys ahead, its report line, and what a key does to a plan.
#![tactic(auto)]

pub mod ahead;
pub mod dial;
pub mod keying;
pub mod report;
pub mod text;
