//! Which modules are accepted (SPIR-V 1.6 section 2.16, and this project's profile), and what a debugger reads off them.
#![tactic(auto)]

mod acceptance;
mod breaches;
pub mod entry;
pub mod meanings;
mod modules;
pub mod stack;
mod validity;

pub use acceptance::{accept, accepted_modules_pass};
pub use breaches::refusals_are_least_breaches;
pub use meanings::Meaning;
pub use modules::Module;
pub use validity::accepted_modules_are_valid;
