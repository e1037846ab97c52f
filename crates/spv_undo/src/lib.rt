//! What undoes the primitive changes of a state.
#![tactic(auto)]

pub mod entries;
pub mod undoing;

pub use entries::Entry;
