//! What paths name: variables of the source, found by their names from a scope outward, and their parts.
#![tactic(auto)]

mod paths;
mod portions;
mod scopes;
mod variables;

pub use paths::{Named, is_local, part_of};
pub use variables::Variables;
