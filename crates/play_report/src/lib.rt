//! What a person is shown of lines after lists of calls: each line by itself, and whether two are told alike.
#![tactic(auto)]

pub mod side;
pub mod tell;
pub mod words;
