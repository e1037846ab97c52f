//! What the instructions that compute give at run time: each call takes an instruction of an accepted module that keeps the rule of its
//! opcode, and values of the types of its operands, and gives the value of the result, which has the shape of the result's type
//! (SPIR-V 1.6 sections 3.42.11 to 3.42.15).
#![tactic(auto)]

pub mod binary_ops;
pub mod bitcasts;
pub mod composites;
pub mod computations;
pub mod copies;
pub mod extended_ops;
pub mod fields;
pub mod glsl_ops;
mod lanes;
mod literals;
mod room;
pub mod selects;
pub mod truths;
pub mod unary_ops;
pub mod undefs;
pub mod vectors;

pub use binary_ops::{binary, binary_single};
pub use bitcasts::bitcast;
pub use composites::{construct, extract, insert};
pub use computations::Computation;
pub use copies::{copy, copy_logical};
pub use extended_ops::extended;
pub use fields::{extract_field, insert_field};
pub use glsl_ops::{glsl_one, glsl_three, glsl_two};
pub use selects::select;
pub use truths::truth;
pub use unary_ops::unary;
pub use undefs::undefined;
pub use vectors::{extract_dynamic, insert_dynamic, shuffle};
