//! How long lines may be.

/// The most bytes that a line may have, without its end.
pub const LINE_LIMIT: usize = 4096;
