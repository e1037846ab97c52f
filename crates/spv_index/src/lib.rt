//! The index of a module: its instructions by the ids that they define and by their words, and what it says of ids.
#![tactic(auto)]

pub mod classes;
mod debug_set;
mod decorations;
mod firsts;
mod index;
mod keyed;
mod operands;
pub mod positions;
pub mod stands;
mod table;

pub use debug_set::set_number;
pub use firsts::Firsts;
pub use index::{Index, type_in};
pub use keyed::{Keyed, keys_of, places_of};
pub use operands::{id_in, id_operand, literal_in, literal_operand, operands_from, text_operand};
pub use table::Table;
