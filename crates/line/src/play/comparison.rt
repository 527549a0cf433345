use crate::play::Side;

pub mod compare;

// Two plans with a list of calls for each, to be played on two lines with one number.
pub struct Comparison<P, Q> {
    number: u32,
    first: Side<P>,
    second: Side<Q>,
}
