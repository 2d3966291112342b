//! Answers to inquiries: what each command on elements, or on the whole group, asks, and the text that answers it.
//!
//! A [`Workspace`] has the group that is set. Its method `put_answer` puts the text that answers an `Inquiry` of `cox_command`, or tells
//! why it is refused. What an inquiry asks is a question of `cox_replies`, which also puts texts from rows that are there. Rows of
//! Kazhdan-Lusztig polynomials are kept in the workspace from one answer to the next. They are made where they are asked for: a
//! [`RowMaker`] may make them first, by several threads, say, and one thread makes what is missing then.
//!
//! Each module names only modules above it in this list:
//!
//! - `faults`: what faults lead to
//! - `finite`: whether a group is seen to be finite
//! - `small_roots`: the table of small roots, which workspaces with the same group share
//! - `whole_group_policy`: when the whole group is taken in the place of interval after interval
//! - `totals`: what is summed up over polynomials of rows
//! - `needs`: what a command needs of the rows that are kept
//! - `kept_rows`: the rows that are kept of a group, and what is known of all of them
//! - `workspace`: what answers work with
//! - `likeness`: whether two workspaces have the same group and limits
//! - `row_maker`: what makes rows that are asked for
//! - `answers`: the texts
#![tactic(auto)]

mod answers;
mod faults;
mod finite;
mod kept_rows;
mod likeness;
mod needs;
mod row_maker;
mod small_roots;
mod totals;
mod whole_group_policy;
mod workspace;

pub use cox_replies::Unanswered;
pub use row_maker::{OneThread, RowMaker};
pub use workspace::Workspace;
