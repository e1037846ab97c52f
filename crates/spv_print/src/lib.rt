//! The text of a variable of the source, by its debug type.
#![tactic(auto)]

mod enums;
mod laws;
mod layouts;
mod leaves;
mod numbers;
mod pieces;
mod sheets;
mod writers;

pub use laws::texts_reach_each_level;
pub use layouts::{Layout, text};
