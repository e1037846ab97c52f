//! Memory: the variables of a workgroup, each a row of cells in code and a tree in contracts (SPIR-V 1.6 sections 2.16.1,
//! 3.42.8 and 3.7).
#![tactic(auto)]

pub mod blanks;
mod cells;
pub mod chains;
pub mod conditions;
pub mod entries;
pub mod laws;
pub mod levels;
pub mod parts;
pub mod places;
pub mod singles;
pub mod storage;
pub mod targets;
pub mod variables;

pub use cells::cell_of;
pub use chains::chain;
pub use entries::{Locals, Roots};
pub use storage::Memory;
pub use variables::Variable;
