//! The parts of debug types by their bits: elements, and members by number and by name.
#![tactic(auto)]

mod arrays;
mod composites;
mod parts;

pub use arrays::as_array;
pub use composites::{
    is_member, last_member, member_count, member_named, member_type, members, name_of, part_named,
};
pub use parts::{
    Place, TypePart, literal, operand, operands_from, part_at, part_bits, plain, reached,
    type_bits, whole,
};
