//! The built-ins of Input variables, and of the constant WorkgroupSize (SPIR-V 1.6 section 3.21).

/// `NumWorkgroups`.
pub const NUM_WORKGROUPS: u32 = 24;

/// `WorkgroupSize`.
pub const WORKGROUP_SIZE: u32 = 25;

/// `WorkgroupId`.
pub const WORKGROUP_ID: u32 = 26;

/// `LocalInvocationId`.
pub const LOCAL_INVOCATION_ID: u32 = 27;

/// `GlobalInvocationId`.
pub const GLOBAL_INVOCATION_ID: u32 = 28;

/// `LocalInvocationIndex`.
pub const LOCAL_INVOCATION_INDEX: u32 = 29;
