//! What users are shown: the text of a value at its type, and of a pointer.
#![tactic(auto)]

pub mod pointers;
mod scalars;
mod sheets;
pub mod values;

pub use pointers::pointer_text;
pub use values::{open_text, row_text, value_text};
