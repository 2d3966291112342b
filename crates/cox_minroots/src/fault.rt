//! Why there is no table.
use thiserror::Error;

/// Why there is no table of small roots.
#[derive(Clone, Copy, Debug, Drop, Eq, Error, PartialEq)]
pub enum RootFault {
    /// There are more small roots than the limit; `seen` is one more than the limit.
    #[error("{seen} small roots, and perhaps more")]
    TooMany {
        /// How many there are at least.
        seen: u32,
    },
    /// Out of memory.
    #[error("out of memory")]
    NoMemory,
}
