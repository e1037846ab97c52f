//! The capabilities that are accepted (SPIR-V 1.6 section 3.31).

/// `Matrix`.
pub const MATRIX: u32 = 0;

/// `Shader`.
pub const SHADER: u32 = 1;

/// `Int64`.
pub const INT64: u32 = 11;

/// `Int64Atomics`.
pub const INT64_ATOMICS: u32 = 12;

/// `Int16`.
pub const INT16: u32 = 22;

/// `Int8`.
pub const INT8: u32 = 39;

/// `StorageBuffer16BitAccess`.
pub const STORAGE_BUFFER16_BIT_ACCESS: u32 = 4433;

/// `UniformAndStorageBuffer16BitAccess`.
pub const UNIFORM_AND_STORAGE_BUFFER16_BIT_ACCESS: u32 = 4434;

/// `StorageBuffer8BitAccess`.
pub const STORAGE_BUFFER8_BIT_ACCESS: u32 = 4448;

/// `UniformAndStorageBuffer8BitAccess`.
pub const UNIFORM_AND_STORAGE_BUFFER8_BIT_ACCESS: u32 = 4449;
