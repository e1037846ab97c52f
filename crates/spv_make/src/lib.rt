//! Inputs of any length from a number: a module with debug records, a setup for it, and commands to the debugger.
#![tactic(auto)]

mod debug_set;
mod encoding;
mod ids;
mod making;
mod rows;
mod texts;

pub use making::{Made, make};
