//! What the operands of instructions stand for at run time, and where it lies: constants, undefined values, variables and registers
//! (SPIR-V 1.6 section 2.2.1).
#![tactic(auto)]

mod constants;
pub mod laws;
pub mod operands;
mod reading;
mod trees;

pub use constants::constant;
pub use operands::{Operand, Reference};
pub use reading::{module_root, operand, operand_of};
