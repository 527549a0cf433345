//! A sale on one keypad line: a map, and then commands.
#![tactic(auto)]

pub mod command;
pub mod session;
