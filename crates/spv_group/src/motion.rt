//! What a motion by one event answers.
use spv_base::{EndCause, Happening};

/// What a motion forth did.
#[derive(Clone, Copy)]
pub enum Forth {
    /// This event was made.
    Went(Happening),
    /// The run ends here, for this cause.
    AtEnd(EndCause),
}

/// What a motion back did.
#[derive(Clone, Copy)]
pub enum Back {
    /// This event was taken back.
    Went(Happening),
    /// No event was made yet.
    AtStart,
}
