//! Keys, symbols, marks and timers, their letters, rows of fixed memory, and what a plan is: what every layer above shares.
#![tactic(auto)]

pub mod key;
pub mod letter;
pub mod plan;
pub mod row;
pub mod timers;
