//! Makes of plan: today's lots, two plans side by side, a plan behind a code.
#![tactic(auto)]

pub mod coded;
pub mod digits;
pub mod lot;
pub mod pair;
pub mod refusal;
