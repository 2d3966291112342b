//! A store of rows that threads share: for each member of a context a claim and a cell.
//!
//! A thread works through a seat, as at the table of claims. It claims a member, makes its row, and publishes it; whoever has seen the row
//! Published reads it, without a copy. What the store lends or gives back under a member's number is the row of that member, with
//! coefficients within the store's limit.
//!
//! - `store`: the store and its calls
//! - `taking`: the rows of a store that is ended
#![tactic(auto)]

mod store;
mod taking;

pub use cox_claims::{Claimed, RowState, Seat, Slept};
pub use cox_rowcell::RowGuard;
use std::alloc::AllocError;
pub use store::RowStore;

/// Out of memory.
pub type NoMemory = AllocError;
