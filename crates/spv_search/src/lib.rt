//! Searches over the positions of a group's run: to the next one, or the last one before, where a command has what it asks for.
#![tactic(auto)]

mod again;
mod backward;
mod commands;
mod focus;
mod forward;
mod hits;
mod lead;
mod moves;
mod own;
mod past;

pub use backward::search_backward;
pub use commands::{Backward, Forward, Stopped};
pub use focus::Focus;
pub use forward::{go_on, search_forward};
pub use hits::{Hits, Never};
pub use lead::return_to;
