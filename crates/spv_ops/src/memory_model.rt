//! The memory model that is accepted (SPIR-V 1.6 section 3.5).

/// `GLSL450`.
pub const GLSL450: u32 = 1;
