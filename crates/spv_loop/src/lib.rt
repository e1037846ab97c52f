//! The command loop: the lines of an input are answered one by one, each before more is read; and how a call of the program ends.
#![tactic(auto)]

pub mod answer;
pub mod command_loop;
pub mod debugger;
pub mod limits;
pub mod lines;
pub mod status;

pub use command_loop::run;
pub use debugger::Debugger;
pub use spv_group::{Group, LIMIT};
pub use spv_session::{Next, Session};
pub use status::Status;
