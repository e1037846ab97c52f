//! The decorations that are interpreted, and BufferBlock, which is refused (SPIR-V 1.6 section 3.20).

/// `SpecId`.
pub const SPEC_ID: u32 = 1;

/// `Block`.
pub const BLOCK: u32 = 2;

/// `BufferBlock`.
pub const BUFFER_BLOCK: u32 = 3;

/// `ArrayStride`.
pub const ARRAY_STRIDE: u32 = 6;

/// `BuiltIn`.
pub const BUILT_IN: u32 = 11;

/// `Binding`.
pub const BINDING: u32 = 33;

/// `DescriptorSet`.
pub const DESCRIPTOR_SET: u32 = 34;

/// `Offset`.
pub const OFFSET: u32 = 35;
