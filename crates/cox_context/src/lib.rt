//! Contexts: the members of Bruhat intervals from the identity, or of a whole finite group, with their numbers and shifts.
//!
//! A `Context` is a table on which rows, graphs and cells are computed. Contracts see the Coxeter matrix and the list of the members:
//! distinct normal forms, closed downwards in Bruhat order, whose numbers rise in that order. A new context has exactly the interval or the
//! group as its members, in ShortLex order, and is refused exactly where it would have too many members or one with too many letters. One
//! that grows by an interval keeps its numbers: the new members come behind the others, in place. All this is proved, and what each look-up
//! answers. A look-up takes no memory. It stands on the words of `cox_minroots` and the exchange and the lifting of `cox_reflect`.
//!
//! - `context`: the type and its calls
//! - `standing`: where an element stands in a context
//! - `fault`: why a context is refused
//! - `scope`: the group or the interval that is meant
//! - `members`: the members, each by its first letter and the rest of its word
//! - `shifts`: tables of shifts
//! - `appending`: appends the members of an interval behind those that are there, by lists of what is below each end of a word
//! - `exchange`: the same by strong exchange, where few letters are left
//! - `builder`: finds the members, length by length, with their left shifts
//! - `lower`: the shorter elements t y of a new element y
//! - `lifting`: whether a new element is below the top
//! - `tables`: what is kept of each member beside its left shifts
//! - `right_shifts`: the table of right shifts
//! - `inverses`: the table of inverses
//! - `descents`: the descents of each member, read off these tables
//! - `laws`: each interval has one list in ShortLex order, closed downwards
#![tactic(auto)]

mod appending;
mod builder;
mod context;
mod descents;
mod exchange;
mod fault;
mod inverses;
pub mod laws;
mod lifting;
mod lower;
mod members;
mod right_shifts;
mod scope;
mod shifts;
mod standing;
mod tables;

pub use context::Context;
pub use fault::ContextFault;
pub use members::MAX_MEMBERS;
pub use standing::Standing;
