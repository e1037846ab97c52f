//! The instruction at which an invocation stands, what its operands stand for, and what an instruction does or why it faults (SPIR-V 1.6
//! section 3.42).
#![tactic(auto)]

mod causes;
mod effects;
mod sites;
mod targets;

pub use causes::Cause;
pub use effects::{Control, Effect, Entered, Gain, PhiValue, Taken};
pub use sites::{Datum, Site, copied, given, owned};
pub use targets::{Place, Target};
