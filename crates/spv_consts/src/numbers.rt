//! The limits and the codes of this project that the rules of constants name.

/// How deep a type may be nested.
pub(crate) const MOST_NESTING: u64 = 32;

/// How many cells a type, and all constants together, may have.
pub(crate) const MOST_CELLS: u64 = 4_194_304;

/// The code of the rules of constants.
pub(crate) const RULES_CODE: u8 = 14;

/// The code of the limits on types and constants.
pub(crate) const LIMITS_CODE: u8 = 18;
