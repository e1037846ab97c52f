//! The words of the command line, as `clap` reads them.
#![tactic(auto)]

mod command;
mod reading;
mod request;

pub use reading::read;
pub use request::{FaultyWords, Request};
