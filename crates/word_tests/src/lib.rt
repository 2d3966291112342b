//! Tests of matrices, their symmetries, the text of polynomials, small roots and directed graphs. There is no code here, only tests.
//! They stand apart from the crates that they test, since a crate with tests is proved twice. A law says that faults which they compare are
//! the same where `==` tells them to be equal. So no assertion passes by a `==` that is always true.
//!
//! - `laws`: what `==` tells of the values that tests compare
//! - `graphs`: the classes of `cox_scc`
//! - `matrices`: the matrices of `cox_base`
//! - `polynomials`: the text of the polynomials of `cox_poly`, also read by `cox_polyread`
//! - `small_roots`: the tables of `cox_minroots`
//! - `symmetries`: the symmetries of `cox_symmetry`
#![tactic(auto)]

#[cfg(test)]
mod graphs;
pub mod laws;
#[cfg(test)]
mod matrices;
#[cfg(test)]
mod polynomials;
#[cfg(test)]
mod small_roots;
#[cfg(test)]
mod symmetries;
