//! Values as rows of cells in code, and as trees in contracts.
#![tactic(auto)]

pub mod laws;
pub mod parts;
pub mod rows;
pub mod singles;
pub mod trees;

pub use parts::Part;
pub use rows::Row;
pub use singles::Single;
