//! The text of a map: its readers, its faults, and the map that a text stands for.
#![tactic(auto)]

mod alternative;
mod blame;
mod blank;
pub mod draft;
pub mod fault;
pub mod head;
pub mod map;
pub mod node;
pub mod progress;
pub mod read;
mod reader;
pub mod set;
pub mod sign;
pub mod token;
