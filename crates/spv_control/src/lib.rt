//! What branches, switches, phis, calls, returns with a value and barriers do (SPIR-V 1.6 sections 3.42.9, 3.42.17 and 3.42.20).
#![tactic(auto)]

pub mod barriers;
pub mod branches;
pub mod calls;
mod kept_calls;
mod kept_control;
mod phis;
mod switches;
