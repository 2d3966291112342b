//! Makes the row of Kazhdan-Lusztig polynomials of a member w of a context from rows that are at hand.
//!
//! For a descent s of w on the left, v = sw, and an extremal x <= w, P(x,w) is P(sx,v) + q P(x,v), less the sum of mu(u,v)
//! q^((l(w)-l(u))/2) P(x,u) over the u with su < u (Kazhdan and Lusztig 1979, 2.2.c; Humphreys 7.11); and the same on the right. Of the
//! steps whose rows are at hand, the one with the fewest corrections is taken. Where the row of the inverse of w is there, or that of
//! another image under a symmetry, P(x,w) is read off that (`cox_row_symmetry`). What is found of a row is put together by
//! `cox_row_builder`.
//!
//! - `member`: the row of a member, and the rows that a row is made from
//! - `choice`: which step is taken
//! - `step`: the descent, the shorter element and the corrections
//! - `descent_bits`: which members each letter shortens, by bits
//! - `extremal`: the extremal members up to the member, chosen by these
//! - `lowering`: the extremal members up to the member, and where the step leads from them
//! - `plan`: a row that is to be made, once threads have had the chance to find polynomials of it
//! - `task`: what a row is made from
//! - `making`: the row, one extremal member after another
//! - `sums`: the polynomial at one extremal member, by the recursion
//! - `parallel`: polynomials that several threads find before the row is made
//! - `tables`: symmetries, the descents of all members, and what is kept from row to row
#![tactic(auto)]

mod choice;
mod descent_bits;
mod extremal;
mod lowering;
mod making;
mod member;
mod parallel;
mod plan;
mod step;
mod sums;
mod tables;
mod task;

pub use choice::correction_count;
pub use cox_row_builder::{StepFault, Steps, identity_row};
pub use cox_row_symmetry::{Descent, shift, shortens};
pub use member::{begin_row, needs, row};
pub use parallel::FoundPolynomial;
pub use plan::{RowPlan, RowStart};
pub use tables::{Tables, shared_row};
