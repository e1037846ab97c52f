//! What an instruction does to a state, worked out before any of it is done, or why it faults (SPIR-V 1.6 section 3.42).
#![tactic(auto)]

mod cells;
mod effects;

pub use cells::{CellEffect, cell_effect};
pub use effects::effect_at;
