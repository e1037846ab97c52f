//! The execution model of compute shaders (SPIR-V 1.6 section 3.3).

/// `GLCompute`.
pub const GL_COMPUTE: u32 = 5;
