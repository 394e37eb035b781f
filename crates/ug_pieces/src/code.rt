//! The bytes of a short text that stand for more than themselves. Below them each stands for itself.

/// The first of a hundred that stand for two digits.
pub const TWO_DIGITS: u8 = 128;

/// The first of ten that stand for a digit and a dot.
pub const DIGIT_AND_DOT: u8 = 228;

/// The first of ten that stand for a digit and an at sign.
pub const DIGIT_AND_AT: u8 = 238;

/// `climb `
pub const CLIMB: u8 = 248;

/// A newline and `climb `
pub const NEXT_CLIMB: u8 = 249;

/// ` id=0 `
pub const ID_ZERO: u8 = 250;

/// ` id=`
pub const ID: u8 = 251;

/// `.0/`
pub const LAST_ZERO: u8 = 252;

/// `0/24 id=0 `
pub const ZERO_24: u8 = 253;

/// `.0/24 id=0 `
pub const LAST_ZERO_24: u8 = 254;
