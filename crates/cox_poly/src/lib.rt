//! Polynomials in `q` over the integers: exact sums, and their text.
//!
//! Contracts see a [`Poly`] as the list of its coefficients, from the constant one up, without
//! trailing zeros, so equal polynomials are equal lists. An [`Acc`] adds multiples of polynomials
//! in place, without memory, and gives its sum back only where each coefficient is within a limit.
//! A text is appended to a vector of bytes: whole, or, where memory runs out, a prefix of it, as
//! `Puts` in `specs/Puts.antt` says; `proofs/Behind.antt` has what follows for one text behind another.
//! Memory can run out only where the vector has no room for the whole text, and its capacity never shrinks.
//! It stands on `itoa` for digits and `thiserror` for the fault.
//!
//! - `polynomial`: the polynomials;
//! - `poly_view`, `poly_list`: polynomials whose coefficients another value keeps, and a list of many;
//! - `accumulator`: the sums of 128 bits;
//! - `poly_fault`: why a sum is no polynomial;
//! - `append`: bytes and whole numbers in decimal, for all that is printed;
//! - `polynomial_text`: the text of a polynomial, and what stands before a power in it;
//! - `laws`: facts of polynomials that no single call states.
#![tactic(auto)]

use std::alloc::AllocError;

mod accumulator;
pub mod append;
pub mod laws;
mod poly_fault;
mod poly_list;
mod poly_view;
mod polynomial;
mod polynomial_text;

pub use accumulator::{Acc, DEGREES};
pub use poly_fault::PolyFault;
pub use poly_list::PolyList;
pub use poly_view::PolyView;
pub use polynomial::Poly;
pub use polynomial_text::put_factor;

/// Out of memory.
pub type NoMemory = AllocError;
