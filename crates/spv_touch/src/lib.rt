//! What the next event of an invocation reads and writes of the variables that all invocations share, and whether it arrives at a barrier.
#![tactic(auto)]

mod accesses;
pub mod laws;
mod parts;
pub mod ranges;
mod touching;

pub use touching::touch;
