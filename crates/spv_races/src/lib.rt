//! Races: whether the events of a stretch of a run may change places, or which of them conflict.
#![tactic(auto)]

mod going;
mod races;

pub use races::order_of;
