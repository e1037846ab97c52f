//! The scope that a barrier of a workgroup has (SPIR-V 1.6 section 3.27).

/// `Workgroup`.
pub const WORKGROUP: u32 = 2;
