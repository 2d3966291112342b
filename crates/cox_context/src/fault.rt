//! Why a context is refused.
use thiserror::Error;

/// Why a context is refused.
#[derive(Clone, Copy, Debug, Drop, Eq, Error, PartialEq)]
pub enum ContextFault {
    /// There are more members than the limit admits: `seen` of them were found, one more than the limit.
    #[error("more than {limit} members")]
    Size { limit: u32, seen: u32 },
    /// One of the first members has more letters than a member may have.
    #[error("a member has too many letters")]
    Long,
    /// Memory ran out.
    #[error("out of memory")]
    NoMemory,
}
