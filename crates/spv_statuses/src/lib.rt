//! The statuses of a workgroup's invocations, and what they tell together.
#![tactic(auto)]

pub mod counts;
pub mod group;
pub mod invocations;
pub mod laws;

pub use group::Statuses;
pub use invocations::Status;
