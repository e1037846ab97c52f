//! How much is read.

pub use spv_loop::limits::INPUT_LIMIT;

/// The most bytes of a module.
pub const BINARY_LIMIT: u64 = 4_194_304;

/// The most bytes of a setup.
pub const SETUP_LIMIT: u64 = 67_108_864;
