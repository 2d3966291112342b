//! Inverse Kazhdan-Lusztig polynomials.
//!
//! The inverse row of w has Q(x,w) for each x <= w: Q(w,w) is 1, and for x < w the sum of (-1)^(l(z)-l(x)) P(x,z) Q(z,w) over the z with
//! x <= z <= w is 0 (Kazhdan and Lusztig 1979, section 3). So it is made from w down, from the rows of the z. In a finite group Q(x,w) is
//! P(w0 w, w0 x) for the longest element w0.
//!
//! - `laws`: each element has exactly one inverse row; its degrees; the sum from the other side; finite groups
//! - `row`: inverse rows
//! - `sums`: the recursion at one member
//! - `large`: the polynomials P(x,z) that have a coefficient above the limit
//! - `interval`: the members between two
//! - `finite`: what is read off a row in a finite group
//! - `fault`: why an inverse row is not made
#![tactic(auto)]

mod fault;
mod finite;
mod interval;
mod large;
pub mod laws;
mod row;
mod sums;

pub use fault::{InverseFault, MAX_COEFFICIENT};
pub use finite::LongestElement;
pub use interval::Interval;
pub use row::{InverseRow, inverse_row};
