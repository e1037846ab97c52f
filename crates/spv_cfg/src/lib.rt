//! Functions and blocks of a module (SPIR-V 1.6 sections 2.4 and 2.16.1): whether they are in order, which instruction
//! comes after which, and how long chains of calls become.
#![tactic(auto)]

mod branches;
mod calls;
mod chains;
mod distinct;
mod edges;
mod executables;
mod flow;
mod labels;
pub mod laws;
mod layout;
mod operands;
mod phis;
mod switches;

pub use calls::Calls;
pub use chains::{counted_chains_are_heaviest, depths_are_longest_chains};
pub use flow::Flow;
pub use labels::selector_width;
pub use switches::at_width;
