//! The text of a polynomial, read back. It is as `cox_poly` writes it.
//!
//! - `polynomial_reading`, `term_reading`: a polynomial, and one term of it
//! - `text_fault`: why a text is not read
//! - `laws`: a polynomial is known by its text
#![tactic(auto)]

pub mod laws;
mod polynomial_reading;
mod term_reading;
mod text_fault;

pub use polynomial_reading::read_polynomial;
pub use text_fault::TextFault;
