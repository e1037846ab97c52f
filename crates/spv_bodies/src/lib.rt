//! The typing rules of function bodies (SPIR-V 1.6 sections 3.42.1 and 3.42.8 to 3.42.20, and this project's profile).
#![tactic(auto)]

mod atomics;
mod bodies;
mod calls;
mod chains;
mod classes;
mod composites;
mod context;
mod control;
mod lanes;
mod laws;
mod matching;
mod memory;
mod pointers;
mod rules;
mod terms;
mod within;

pub use bodies::check_bodies;
pub use laws::instructions_keep_their_rules;
