//! Events of a run that may change places: in whatever order they are made, the run reaches the same state.
#![tactic(auto)]

pub mod laws;
