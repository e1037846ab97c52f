//! Events, as far as their order matters.

/// Leaves of a root that follow one another: from `first` on, before `end`.
#[derive(Clone, Copy)]
pub struct Leaves {
    pub root: u32,
    pub first: u32,
    pub end: u32,
}

/// An event of an invocation: whether it arrives at a barrier, which one that opens a barrier also does, and the leaves of the roots
/// that all invocations share that it reads and that it writes. The lists are those of the position before the event, and the same
/// leaf may stand in both and more than once.
#[derive(Drop)]
pub struct Event {
    pub invocation: u32,
    pub arrives: bool,
    pub reads: Vec<Leaves>,
    pub writes: Vec<Leaves>,
}
