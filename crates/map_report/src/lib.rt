//! What a person is shown of a map's text: what its map has, or its fault and the faulty byte.
#![tactic(auto)]

pub mod escape;
pub mod line;
pub mod report;
pub mod words;
