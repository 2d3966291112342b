//! The modules of the Hecke algebra that left cells carry.
//!
//! The elements of a left cell are the basis of a free module over the integer polynomials in v = q^(1/2). On it the generators t(s) of the
//! Hecke algebra act from the left as the W-graph says: t(s) x is -x for a left descent s of x. Otherwise it is v^2 x plus v times the sum
//! of the m y over the elements y of the cell that have the left descent s and are joined to x, where m is the value of the edge (Kazhdan
//! and Lusztig 1979, section 1 and theorem 1.3). It is proved that (t(s) + 1)(t(s) - v^2) = 0, and that the braid relations hold, for each
//! left cell of each finite group.
//!
//! - `term`: a term of an image, and the entries of the matrices
//! - `image`: the image of one element under one letter
//! - `module`: the module and its calls
//! - `laws`: each element has one image, and the operators meet the relations
//!
//! What has to be believed of it stands in three files of `specs/`: `Images`, `FreeModule` and `Relations`.
#![tactic(auto)]

mod image;
pub mod laws;
mod module;
mod term;

pub use module::{CellModule, cell_module};
pub use term::{Entry, Term};
