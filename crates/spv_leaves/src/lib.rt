//! The path that leads to a leaf of a variable.
#![tactic(auto)]

mod paths;

pub use paths::leaf_path;
