//! The line: it collects one buyer's keys under one plan, from arming to report.
#![tactic(auto)]

pub mod line;
pub mod play;
pub mod receipt;
