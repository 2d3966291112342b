//! A context with rows of its members, which are made on demand.
//!
//! To make the row of w, the recursion by least left descents asks for the rows of Need(w): w itself, what sw needs for the least left
//! descent s of w, and what the corrections of the step need. `Rows` owns a context and rows, and makes those that are asked for. When the
//! context grows, members and rows keep their numbers. It is proved that it makes the rows of Need(w) that are missing and no others, that
//! each is the row of its member, and that it refuses exactly where a row of Need(w) is beyond a limit.
//!
//! - `rows`: the type, its look-ups, and contexts that grow
//! - `ensuring`: how rows are made
//! - `held`: rows by number
//! - `flags`: flags by number
//! - `laws`: whether Need(w) has a row beyond a limit can be told; symmetries take such rows to such rows
#![tactic(auto)]

mod ensuring;
mod flags;
mod held;
pub mod laws;
mod rows;

pub use rows::Rows;
