// A timer of an open line: T before the first key, S and L after it. A wait is a timer with its seconds.
#[derive(Clone, Copy, PartialEq, Eq, Debug)]
pub enum Timer {
    Start,
    Short,
    Long,
}
