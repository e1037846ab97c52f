//! The words of a line, and the numbers and bytes that words spell.
#![tactic(auto)]

mod hex;
mod numbers;
mod words;

pub use hex::bytes;
pub use numbers::{number, push_number};
pub use words::{next_word, only_word};
