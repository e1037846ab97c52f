//! The texts of ids: what one stands for in a state, as it is shown.
#![tactic(auto)]

mod elements;
mod ids;
mod texts;

pub use texts::{id_text, target_of, type_of};
