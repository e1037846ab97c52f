//! The addressing model that is accepted (SPIR-V 1.6 section 3.4).

/// `Logical`.
pub const LOGICAL: u32 = 0;
