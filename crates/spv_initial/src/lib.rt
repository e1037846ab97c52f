//! What the variables of a module begin with, and the memory that a run starts with.
#![tactic(auto)]

pub mod blocks;
pub mod constants;
mod elements;
pub mod frames;
pub mod memory;
pub mod values;
pub mod variables;

pub use frames::local_variables;
pub use memory::starting;
pub use values::Opening;
pub use variables::{Declared, declared_in};
