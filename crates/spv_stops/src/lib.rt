//! What a run stops at: breaks, watches, and halts of probes. A break or a watch has a number that no other had before it.
#![tactic(auto)]

mod breaks;
mod halts;
pub mod laws;
mod stops;
mod watches;

pub use breaks::{Breakpoint, Breaks};
pub use halts::Halts;
pub use watches::{WatchKey, Watches};
