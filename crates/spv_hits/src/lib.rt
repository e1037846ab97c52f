//! Whether breaks, watches and halts of probes hit at a position of a group: what searches stop at beside what their commands ask for.
#![tactic(auto)]

mod bits;
mod happenings;
mod heads;
mod hits;
mod moves;
mod places;
mod probes;
mod same;
mod watches;

pub use happenings::lined;
pub use hits::StopHits;
pub use probes::{any_halted, halt_numbers};
