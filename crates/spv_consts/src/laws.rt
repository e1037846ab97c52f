//! What the constants of an accepted module give, and what breaches of their rules are.
pub mod breaches;
pub mod constants;
pub mod limits;
pub mod values;
