//! The text of certificates of rows: a group, an element w of it, the elements x <= w, and P(x,w) for each of them, as lines of text.
//!
//! The lines are definitions in `specs/Certificate.antt`. What reads and checks them is `cox_cert`.
//!
//! - `limits`: what a check takes at most
//! - `printing`: what stands before the list of the entries, and behind it
#![tactic(auto)]

mod limits;
mod printing;

pub use limits::{MAX_CHECKED_COEFFICIENT, MAX_DEGREE, MAX_LISTED};
pub use printing::{put_foot, put_head};
