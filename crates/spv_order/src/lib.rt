//! What the order of some events is worth: whether the leaves that they read and write let them change places.
#![tactic(auto)]

mod events;
pub mod laws;
mod orders;
mod reaches;
mod search;
mod sweep;
mod touches;

pub use events::{Event, Leaves};
pub use orders::{Answer, order};
