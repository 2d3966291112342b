//! Small roots (Brink and Howlett, "A finiteness property and an automatic structure for Coxeter groups", 1993), for every admissible
//! integer matrix: the theory behind the table of `cox_minroots`. Nothing here runs.
//!
//! - `laws`: what holds of small roots; the lemmas behind it are in `proofs/`, for the crate above
#![tactic(auto)]

pub mod laws;
