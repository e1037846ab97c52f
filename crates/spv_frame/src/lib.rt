//! Frames: the registers of a call, where it stands, the debug events that it passed, and the stack of an invocation's calls.
#![tactic(auto)]

pub mod contents;
pub mod events;
pub mod frames;
pub mod functions;
pub mod laws;
pub mod numbers;
pub mod plans;
pub mod slots;
pub mod stacks;

pub use contents::{Argument, Content, Source};
pub use events::{Captured, DebugEvent};
pub use frames::Frame;
pub use functions::{Plans, Register};
pub use plans::Plan;
pub use slots::{Place, PointerSlot, Slot};
pub use stacks::Stack;
