//! R-polynomials of Coxeter groups (Kazhdan and Lusztig 1979; Humphreys, "Reflection Groups and Coxeter Groups", 7.4, 7.5).
//!
//! [`r`] computes R(y,w) over any arithmetic of words (`cox_reflect::Words`), where the lengths differ by at most [`MAX_DIFFERENCE`]: then
//! the coefficients have 64 bits. It goes along the reduced word of w, layer by layer, and meets each element that is below what is left of
//! the word once. It stands on `cox_reflect` for heights and words, on `cox_poly` for polynomials, and on `indexmap` for the elements of a
//! layer.
//!
//! - `laws`: R(w,w) = 1, R(x,w) = 0 unless x <= w, the recursion, and how large the coefficients get
//! - `polynomial`: R of two words
//! - `layers`: the values along a reduced word
//! - `elements`: elements, by heights or by normal forms, and what is asked of them
//! - `terms`: polynomials of a small degree, and a step of the recursion
//! - `no_value`: why there are no values along a word
//! - `r_fault`: why R is not given
#![tactic(auto)]

use std::alloc::AllocError;

mod elements;
pub mod laws;
mod layers;
mod no_value;
mod polynomial;
mod r_fault;
pub mod terms;

pub use polynomial::r;
pub use r_fault::RFault;

/// The greatest difference of the lengths at which R is computed. The absolute coefficients add up to at most 3^39 then, which has 62 bits.
pub const MAX_DIFFERENCE: usize = 39;

/// Out of memory.
pub type NoMemory = AllocError;
