//! The text form of modules: a line for each instruction, by the grammar of its opcode (SPIR-V 1.6 section 3, Instructions).
#![tactic(auto)]

mod fronts;
mod inst_reading;
mod line_reading;
mod lines;
mod naming;
mod numbers;
mod parts;
mod reading;
mod strings;
mod writing;

pub use lines::{Line, Part, Wrong};
pub use reading::read_listing;
pub use writing::listing;
