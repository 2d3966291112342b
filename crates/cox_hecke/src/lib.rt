//! Kazhdan-Lusztig polynomials (Kazhdan and Lusztig, "Representations of Coxeter groups and Hecke algebras", 1979; Humphreys, "Reflection
//! Groups and Coxeter Groups", chapter 7), for every admissible integer matrix: each element has exactly one row of polynomials, and the
//! recursion makes it, whichever descent is taken. Nothing here runs.
//!
//! - `laws`: what holds of the Hecke algebra, R-polynomials, rows and mu; the lemmas behind it are in `proofs/`, for the crates above
#![tactic(auto)]

pub mod laws;
