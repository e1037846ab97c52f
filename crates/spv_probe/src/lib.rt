//! Probes that count stores, lines and arrivals at barriers, and the kit that holds the boxes of a session.
#![tactic(auto)]

mod barriers;
mod kit;
mod lines;
mod slots;
mod stores;

pub use barriers::Barriers;
pub use kit::Kit;
pub use lines::Lines;
pub use stores::Stores;
