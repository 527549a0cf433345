//! What a person is shown of a plan while keys are pressed at it: one line for each key.
#![tactic(auto)]

pub mod asked;
pub mod key;
pub mod next;
pub mod standing;
pub mod words;
