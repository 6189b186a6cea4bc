//! The conditions by document 01's numbers, which stay numbers: C returns them, and the definitions' lists of conditions are by them.

pub const WRONG_LENGTH: u32 = 11;

pub const WRONG_BYTES: u32 = 12;

pub const MISCOUNTED: u32 = 21;

pub const WRONG_ID: u32 = 22;

pub const MISSPELLED: u32 = 31;

pub const MISPLACED: u32 = 32;

pub const OUT_OF_RANGE: u32 = 33;

pub const TOO_LARGE: u32 = 42;

pub const TOO_SHORT: u32 = 51;

pub const UNSUMMED: u32 = 52;

pub const REFUSED: u32 = 53;
