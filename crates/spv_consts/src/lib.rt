//! The constants of a module in its order, with overrides, and the lengths of arrays that they give (SPIR-V 1.6
//! sections 2.9, 3.42.6 and 3.42.7).
#![tactic(auto)]

mod build;
mod context;
mod evaluation;
mod lanes;
pub mod laws;
mod lengths;
mod literals;
mod numbers;
mod operations;
mod overrides;
mod rules;
mod spec_ids;
mod steps;
pub mod table;
mod values;
mod walk;

pub use overrides::{known_spec_ids, misfits};
pub use table::{ConstTable, Row, RowPlace};
