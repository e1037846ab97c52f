//! What users are shown of the source: where a frame stands, and the lines around a line.
#![tactic(auto)]

mod frames;
mod lines;
mod rows;
mod walks;
mod windows;

pub use frames::{frame_line, place_text, push_frame, push_shown};
pub use windows::source_lines;
