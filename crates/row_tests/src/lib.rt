//! Tests of contexts, of rows in them, and of the workers that make rows. There is no code here, only tests.
//!
//! They stand apart from the crates that they test, since a crate with tests is proved twice. A law says that values which they compare are
//! the same where `==` tells them to be equal. So no assertion passes by a `==` that is always true.
//!
//! - `laws`: what `==` tells of the values that tests compare
//! - `fixtures`: groups with all their elements, and the rows of these
//! - `contexts`: pairs of elements in Bruhat order against published numbers
//! - `rows`: rows that are settled, rows that are read off those of images, a context that grows, and a long element
//! - `fill_core`: a worked example of the fill core
//! - `given_up`: a row of A 3 that a worker gave up, and that one thread makes afterwards
#![tactic(auto)]

#[cfg(test)]
mod contexts;
#[cfg(test)]
mod fill_core;
#[cfg(test)]
mod fixtures;
#[cfg(test)]
mod given_up;
pub mod laws;
#[cfg(test)]
mod rows;
