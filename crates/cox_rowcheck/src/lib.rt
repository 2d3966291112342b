//! Whether polynomials are the row of an element, by the definition of a row.
//!
//! The row of w has P(x,w) for each x <= w. [`is_row`] is given the elements x <= w as the members of a context, and a polynomial p(x) for
//! each of them. It tests the conditions that define a row (Kazhdan and Lusztig 1979, 1.1; Humphreys, "Reflection Groups and Coxeter
//! Groups", 7.9, 7.10): p(w) is 1, the degrees of the others are low, and q^d p(x)(1/q), with d = l(w) - l(x), is the sum of R(x,y) p(y)
//! over the y with x <= y <= w. So it rests on R-polynomials alone, and on nothing of how rows are made.
//!
//! - `row_check`: the conditions, one by one
//! - `sums`: the sums of the R(x,y) p(y), for all x at once
//! - `checkable`: whether a check takes a polynomial
//! - `column`: R(x,y) for one y and all x
//! - `entries`: the polynomials of a column, one behind another
//! - `prefixes`: the columns of the prefixes of a word
//! - `order`: the members in lexicographic order
//! - `laws`: the polynomials are those of the row exactly where the conditions hold, and there is one such list
#![tactic(auto)]

mod checkable;
mod column;
mod entries;
pub mod laws;
mod order;
mod prefixes;
mod row_check;
mod sums;

pub use checkable::is_checkable;
pub use row_check::is_row;
