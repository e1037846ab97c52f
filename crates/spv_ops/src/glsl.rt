//! The instructions of the extended set GLSL.std.450 that are accepted, each under the name that the set gives it.

/// `SAbs`.
pub const S_ABS: u32 = 5;

/// `SSign`.
pub const S_SIGN: u32 = 7;

/// `UMin`.
pub const U_MIN: u32 = 38;

/// `SMin`.
pub const S_MIN: u32 = 39;

/// `UMax`.
pub const U_MAX: u32 = 41;

/// `SMax`.
pub const S_MAX: u32 = 42;

/// `UClamp`.
pub const U_CLAMP: u32 = 44;

/// `SClamp`.
pub const S_CLAMP: u32 = 45;

/// `FindILsb`.
pub const FIND_I_LSB: u32 = 73;

/// `FindSMsb`.
pub const FIND_S_MSB: u32 = 74;

/// `FindUMsb`.
pub const FIND_U_MSB: u32 = 75;
