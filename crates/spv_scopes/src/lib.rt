//! Where instructions stand in the source: lines, scopes, calls that were inlined, and the frames that are shown of a stack.
#![tactic(auto)]

mod calls;
mod files;
mod frames;
mod heads;
mod in_force;
mod lines;
mod places;
mod scopes;
mod spot_table;
mod spots;
mod stacks;

pub use frames::Real;
pub use lines::Lines;
pub use places::Place;
pub use stacks::{innermost, innermost_line, shown, shown_at, shown_count, shown_of_call};
