//! A row of Kazhdan-Lusztig polynomials while it is made: what it is put together from, whatever the recursion is that gives P(x,w).
//!
//! For a member w a `RowBuilder` is given the polynomial of each extremal x up to it, one after another, or is told that x is not below w.
//! It keeps each polynomial once, and mu(x,w), and notes where a coefficient is above the limit. At the end it gives the row of w, which
//! is proved to be that, or the first coefficient or value of mu that is beyond its limit. The crate stands on rows and contexts, and adds
//! no polynomials up.
//!
//! - `target`: the member w, its descents, and the shifts sw and ws that are shorter
//! - `builder`: the row that is being made
//! - `polynomials`: its polynomials, at the extremal members
//! - `pool`: polynomials, each once, found again by their fingerprints
//! - `mus`: its values of mu
//! - `large`: members with a coefficient above the limit, and the fault that they give
//! - `fault`: why a row is not made
//! - `identity`: the row of the identity
//! - `steps`: how many polynomials were added up
#![tactic(auto)]

mod builder;
mod fault;
mod identity;
mod large;
mod mus;
mod polynomials;
mod pool;
mod steps;
mod target;

pub use builder::RowBuilder;
pub use fault::StepFault;
pub use identity::{identity_row, identity_row_within};
pub use steps::Steps;
pub use target::Target;
