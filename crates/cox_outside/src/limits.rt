//! How long inputs may be, and how much one read asks for.

/// The most bytes of an input that are handed out; one more is read, to tell that there are more.
pub const INPUT_LIMIT: usize = 16_777_216;

/// The most bytes that one read asks for.
pub const CHUNK_SIZE: usize = 4096;
