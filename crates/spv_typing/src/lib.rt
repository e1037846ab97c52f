//! How the types of an operation's operands fit the type of its result (SPIR-V 1.6 sections 3.42.11 and 3.42.13 to
//! 3.42.15, and GLSL.std.450).
#![tactic(auto)]

pub mod fitting;
pub mod glsl;
pub mod lanes;
pub mod laws;
mod operands;
pub mod rules;

pub use fitting::fits_types;
pub use glsl::fits_glsl_types;
pub use lanes::{Element, Lanes, lanes_of};
pub use operands::OperandTypes;
pub use rules::{Rule, is_constant_operation, operand_count};
