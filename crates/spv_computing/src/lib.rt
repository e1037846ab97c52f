//! What the instructions that compute do: their register takes the value that spv_results gives for their operands.
#![tactic(auto)]

pub mod computing;
mod computing_composites;
pub mod computing_lanes;
pub mod kept;
pub mod laws;
pub mod selects;
