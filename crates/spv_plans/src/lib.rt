//! The plans of the functions of an accepted module: which registers a call of each has, and where it begins.
#![tactic(auto)]

mod drafts;
pub mod laws;
mod plans;
mod walks;

pub use plans::plans_of;
