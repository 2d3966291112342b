//! The table of claims: which row of a shared store is claimed, published or void, for any number of threads.
//!
//! Each row has one word of an `atomic_table`. A thread works through a `Seat`, which knows what it holds and
//! what it has seen. Every call but `new`, `close` and `sleep_on` makes one atomic step, and takes no lock, no handle and
//! no memory. A row is won at most once, and is published or voided at most once, by the seat that won it. It
//! stays so for good.
//!
//! - view: what a seat knows and did, in proofs alone
//! - rule: the fact that holds of words and views between any two steps, and what each step tells its seat
//! - seat: the seat itself
//! - table: `Claims` and its calls
//! - laws: each step is the event of the fill core (`cox_fill_core`) that it is named after, and nothing else
//!
//! It stands on `cox_fill_core` and on the kit's `atomic_table`.
#![tactic(auto)]

pub mod laws;
mod rule;
mod seat;
mod table;
mod view;

pub use cox_fill_core::RowState;
pub use seat::Seat;
use std::alloc::AllocError;
pub use table::{Claimed, Claims, Evidence, Slept};
pub use view::View;

/// Out of memory.
pub type NoMemory = AllocError;
