//! The fit of a setup to a module: what a run over both starts with.
#![tactic(auto)]

mod bytes;
mod cells;
mod fitting;
mod given;
mod numbers;

pub use fitting::fit;
