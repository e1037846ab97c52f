//! What loads, stores, copies, access chains, comparisons of pointers, lengths of arrays and atomics do (SPIR-V 1.6 sections 3.42.8 and
//! 3.42.18).
#![tactic(auto)]

pub mod accesses;
pub mod atomics;
pub mod chains;
pub mod kept;
pub mod lengths;
pub mod pointers;
