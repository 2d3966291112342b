//! How far the numbers of `work` go.
use crate::generated::MODULUS;

/// The greatest state of the generator.
pub const MAX_START: u32 = MODULUS - 1;

/// How many words one line generates at most.
pub const MAX_COUNT: u32 = 1_000_000;
