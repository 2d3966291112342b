//! Workers that fill a store of rows.
//!
//! A worker claims the row of a member, makes it from the rows that the recursion asks for, and publishes it. It waits for rows that
//! another worker has claimed. It holds a claim only on rows with greater numbers than the row that it waits for. It gives up a row that it
//! cannot make.
//!
//! Of the calls for one row: `settle` sees it Published or Void; `make_free` makes it if nobody has claimed it; `ensure` claims, makes and
//! publishes it, or waits for the worker that has claimed it; `provide` makes it after what it needs, as far as nobody has claimed that;
//! `supply` makes only what it needs; `take_published` lets the worker read it if it is Published by now; `gather` looks for more such
//! rows.
//!
//! - `missing`: why a row is not there
//! - `read_rows`: rows that a worker reads
//! - `worker_context`, `worker_scratch`: what a worker works at, and what it keeps from row to row
//! - `making`: one row, and those that it is made from
//! - `waiting`: one row that another worker has claimed
//! - `gathering`: rows that are there already and may serve
//! - `sharing`: one row by several workers
//! - `settling`: one row that is wanted, made or given up
//! - `heap_reserve`: memory that a worker takes before it needs it
//! - `schedule`: all rows that are wanted, as one worker goes through them
//! - `filling`: the same by several workers
//! - `shorter`: the element that a row is made from first
//! - `laws`: the law of families
#![tactic(auto)]

mod filling;
mod gathering;
mod heap_reserve;
pub mod laws;
mod making;
mod missing;
mod read_rows;
mod schedule;
mod settling;
mod sharing;
mod shorter;
mod waiting;
mod worker_context;
mod worker_scratch;

pub use filling::{all_members, fill, fill_row};
pub use missing::Missing;
pub use shorter::shorter_member;
pub use worker_context::WorkerContext;
pub use worker_scratch::WorkerScratch;
