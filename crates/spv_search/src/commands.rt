//! What searches look for, and what they answer.
use spv_base::Happening;

/// A search forward, by its command.
#[derive(Clone, Copy)]
pub enum Forward {
    /// So many events that move the invocation.
    Stepi(u32),
    Step,
    Next,
    Finish,
    Continue,
}

/// A search backward, by its command.
#[derive(Clone, Copy)]
pub enum Backward {
    /// So many events that move the invocation.
    Rstepi(u32),
    Rstep,
    Rnext,
    Rfinish,
    Rcontinue,
}

/// Why a search ended at the group's position.
#[derive(Clone, Copy)]
pub struct Stopped {
    /// Whether the group moved, and what the command asks for holds here.
    pub done: bool,
    /// The event before this position, where something may hit: the position before it was noted then. None where the group didn't move,
    /// at the start, and where nothing hits.
    pub event: Option<Happening>,
}
