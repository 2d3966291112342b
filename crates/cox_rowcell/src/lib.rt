//! Cells for rows: each holds the row of one member of a context, once some thread has filled it, and lends it to any number of threads.
//!
//! A cell has a tag, which stands in proofs alone: the context's elements, the member's number and the limit of coefficients. Whatever a
//! cell shows or gives back is the row of its tag. A row is lent without a copy.
//!
//! - `tag`: what row a cell is for
//! - `held`: what a cell holds
//! - `cell`: the cell, and the guard through which a row is read
//! - `filled`: what shows that a cell was filled
#![tactic(auto)]

mod cell;
mod filled;
mod held;
mod tag;

pub use cell::{RowCell, RowGuard};
pub use filled::Filled;
pub use tag::Tag;
