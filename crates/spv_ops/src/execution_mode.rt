//! The execution modes that give the size of a workgroup (SPIR-V 1.6 section 3.6).

/// `LocalSize`.
pub const LOCAL_SIZE: u32 = 17;

/// `LocalSizeId`.
pub const LOCAL_SIZE_ID: u32 = 38;
