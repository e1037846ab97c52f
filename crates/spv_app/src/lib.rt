//! The program over any files, input and output: it opens a module and a setup, and answers commands about their run.
#![tactic(auto)]

pub mod acceptance;
pub mod checking;
pub mod debug;
pub mod debugging;
pub mod limits;
pub mod making;
pub mod opening;
pub mod texting;

pub use checking::Report;
pub use debug::debug_main;
pub use debugging::Debugging;
pub use opening::OpeningRefusal;
pub use spv_loop::{Group, Status, run};
