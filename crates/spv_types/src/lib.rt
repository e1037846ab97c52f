//! The types of a module: what each id's type is, how many leaves it has, where they lie, and the rules that types,
//! module variables and blocks keep (SPIR-V 1.6 sections 2.16.1, 2.16.2 and 3.42.6).
#![tactic(auto)]

pub mod constants;
pub mod counting;
pub mod counts;
pub mod forms;
mod interface_blocks;
pub mod laws;
pub mod layout;
pub mod leaves;
pub mod limits;
pub mod places;
pub mod queries;
pub mod rows;
pub mod rules;
mod spans;
pub mod table;
mod typing;

pub use forms::{Form, Member};
pub use interface_blocks::{check_layout, is_block_variable};
pub use limits::Limit;
pub use table::TypeTable;
