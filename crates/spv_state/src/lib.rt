//! The state of a workgroup: the modules with their setups, the memory and the calls of each invocation, how a run starts, what holds at every
//! position, and the primitive changes (SPIR-V 1.6 sections 2.4 and 2.18).
#![tactic(auto)]

pub mod actions;
pub mod captures;
pub mod events;
pub mod held;
pub mod laws;
mod lookups;
mod plans;
pub mod predecoded;
pub mod registers;
pub mod runnable;
pub mod start;
pub mod undoing;
mod variables;
pub mod whole;

pub use actions::{Action, AtomicOp};
pub use captures::Capture;
pub use events::{captured_at, pass_events};
pub use plans::plan_in;
pub use predecoded::{CellSlot, Predecoded, Short, Source, VariableName};
pub use runnable::Runnable;
pub use whole::Whole;
