//! The machine: one step of an invocation (SPIR-V 1.6 sections 2.4 and 3.42).
#![tactic(auto)]

pub mod applying;
mod cells;
pub mod execution;
mod finishing;
pub mod happenings;
pub mod laws;
mod passing;
pub mod world;

pub use execution::{Did, StepErr, fault_of, step, unstep};
pub use spv_journal::Journal;
pub use spv_sites::Cause;
pub use spv_state::{Action, Runnable, Whole};
pub use world::World;
