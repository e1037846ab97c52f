//! How much input is read.

/// The most bytes of an input. One more is taken at most, which tells that there are more.
pub const INPUT_LIMIT: usize = 16_777_216;
