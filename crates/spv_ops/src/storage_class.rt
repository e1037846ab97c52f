//! The storage classes that are accepted (SPIR-V 1.6 section 3.7).

/// `Input`.
pub const INPUT: u32 = 1;

/// `Uniform`.
pub const UNIFORM: u32 = 2;

/// `Workgroup`.
pub const WORKGROUP: u32 = 4;

/// `Private`.
pub const PRIVATE: u32 = 6;

/// `Function`.
pub const FUNCTION: u32 = 7;

/// `PushConstant`.
pub const PUSH_CONSTANT: u32 = 9;

/// `StorageBuffer`.
pub const STORAGE_BUFFER: u32 = 12;
