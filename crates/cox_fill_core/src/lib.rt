//! The fill core: who claims, publishes and voids the rows of a store that several actors fill.
//!
//! It is a pure machine, with no threads: an event changes the core and gets a reply. The table of claims that
//! threads share (crate `cox_claims`) stands on its laws: each atomic step there is one event.
//!
//! - event: the states of a row, the events and the replies
//! - lists: what a core knows of the needs of rows and of what actors have seen
//! - machine: `Core`, which takes events one by one or as a list
//! - laws: a row is won at most once, made only by its winner, and stays as it was ended
//!
//! It stands on std alone. `specs/Fill.antt` has the definitions, `specs/Laws.antt` the laws.
#![tactic(auto)]

mod event;
pub mod laws;
mod lists;
mod machine;

pub use event::{Event, Reply, RowState};
pub use machine::Core;
use std::alloc::AllocError;

/// Out of memory.
pub type NoMemory = AllocError;
