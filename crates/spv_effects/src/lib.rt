//! The values of the instructions that compute: arithmetic, logic, conversions, fields of bits, selections and composites
//! (SPIR-V 1.6 section 3.42).
//!
//! An operand is a `Part`, cells lent where they lie, and a result goes into a `Row` that the caller keeps and has given the
//! result's number of cells (`resize`). So a result takes no memory. Contracts see the values as trees: each call's clause is
//! one equation between the tree of the result and those of the operands.
#![tactic(auto)]

pub mod binary_ops;
pub mod bitcasts;
pub mod composites;
pub mod extended_ops;
pub mod fields;
pub mod glsl_ops;
mod lanes;
pub mod laws;
pub mod results;
pub mod selects;
pub mod truths;
pub mod unary_ops;
pub mod vectors;

pub use binary_ops::{binary, binary_single};
pub use bitcasts::bitcast;
pub use composites::{construct, construct_vector, copy, extract, insert};
pub use extended_ops::extended;
pub use fields::field;
pub use glsl_ops::glsl;
pub use results::{reserved, resize};
pub use selects::select;
pub use truths::any_all;
pub use unary_ops::unary;
pub use vectors::{extract_dynamic, insert_dynamic, shuffle};
