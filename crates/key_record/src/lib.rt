//! The record of keys: what the calls of a line do to it, as its number and its plan's whole alone tell it.
#![tactic(auto)]

pub mod answer;
pub mod call;
pub mod ending;
pub mod refusal;
pub mod settings;
pub mod timer;
