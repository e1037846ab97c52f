//! A run of a workgroup that goes forth and back along its schedule: where it stands, and why it ends.
#![tactic(auto)]

mod ends;
mod group;
mod motion;
mod positions;
mod run;
mod windows;
mod witness;

pub use ends::end_is_least;
pub use group::{Group, LIMIT};
pub use motion::{Back, Forth};
pub use positions::positions_are_found;
pub use spv_journal::{FrameChange, Touch};
pub use windows::windows_are_least;
pub use witness::Witness;
