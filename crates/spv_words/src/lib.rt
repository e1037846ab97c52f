//! The words of a module's bytes, in either byte order, and its instructions as words (SPIR-V 1.6 section 2.3).
#![tactic(auto)]

pub mod cuts;
pub mod list;

pub use cuts::{instructions_are_cut, raw};
pub use list::{WordList, bytes_of, words};
