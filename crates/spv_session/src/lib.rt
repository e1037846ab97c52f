//! A group, the invocation that is looked at, and the replies to lines of input.
#![tactic(auto)]

mod causes;
mod debug_info;
mod following;
mod frames;
mod info;
mod motions;
mod orders;
mod probes;
mod registers;
mod searches;
mod session;
mod sights;
mod stops;
mod texts;
mod variables;

pub use registers::shown_registers_ascend;
pub use session::{Core, Next, Session};
