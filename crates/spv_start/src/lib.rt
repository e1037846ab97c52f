//! What the variables of a module begin with.
#![tactic(auto)]

pub mod blocks;
pub mod built_ins;
pub mod numbers;

pub use built_ins::Invocation;
