//! Acceptance of a module's decoded instructions before their types are read: the order of sections (SPIR-V 1.6
//! section 2.4), the ids (sections 2.2.1 and 2.16.1), and what a module declares that it needs (sections 3.31 and 3.42.2).
#![tactic(auto)]

mod capabilities;
mod definitions;
mod ids;
mod kinds;
pub mod laws;
mod sections;

pub use capabilities::{check_capabilities, declares_variable_pointers};
pub use ids::check_ids;
pub use sections::check_sections;
