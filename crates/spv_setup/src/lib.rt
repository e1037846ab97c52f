//! The text of a setup: its lines, what each says, and the schedule that they give.
#![tactic(auto)]

mod line;
mod lines;
mod pieces;
mod reading;
mod rows;
mod schedule;
mod settings;
mod setup;

pub use line::{Content, Workgroup};
pub use schedule::Schedule;
pub use settings::{Buffer, Push};
pub use setup::Setup;
