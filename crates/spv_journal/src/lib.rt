//! The journal: what undoes the changes of a state, event by event.
#![tactic(auto)]

pub mod changes;
pub mod journal;
mod marks;
mod noting;
pub mod recorded;
mod rings;
mod touches;

pub use journal::Journal;
pub use recorded::Recorded;
pub use touches::{FrameChange, Touch};
