//! How long a list of blocks may be.

/// The most blocks of a list.
pub const MAX_BLOCKS: usize = 16;

/// The most lines of a list, in all its blocks.
pub const MAX_LINES: usize = 1_000;
