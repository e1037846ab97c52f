//! What a variable of the source holds: the bits that its debug events tell of it.
#![tactic(auto)]

mod cells;
mod entries;
mod events;
mod expressions;
mod fronts;
mod groups;
mod laws;
mod lists;
mod locals;
mod ranges;
mod sizes;
mod sources;
mod spans;
mod typed;
mod variables;
mod views;

pub use cells::InCell;
pub use groups::{Events, is_of_variable};
pub use laws::{bits_are_by_events, bits_are_those_of_leaves, other_events_tell_nothing};
pub use sources::{Source, source_of};
pub use typed::Sizes;
pub use variables::{eval, global_size, variable_bits};
