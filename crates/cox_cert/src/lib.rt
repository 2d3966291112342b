//! The check of certificates of rows. A certificate is a group, an element w of it, the elements x <= w, and P(x,w) for each of them, as
//! lines of text; `cox_certtext` says which lines.
//!
//! - `status`: how a check ends
//! - `reading`: reads the lines after the first: the element, the number of entries, the entries, the end
//! - `matrix_reading`: reads the first line
//! - `parts`: what stands in a line: a fixed text, a byte, a number, a word
//! - `draft`: a certificate, as far as its lines are read
//! - `collecting`: the certificate that the lines of a source give
//! - `judging`: whether it states the row of its element
//! - `checking`: the whole check, from the source to the sink
//! - `laws`: what holds of certificates, of the verdicts on them, and of whole checks
#![tactic(auto)]

mod checking;
mod collecting;
mod draft;
mod judging;
pub mod laws;
mod matrix_reading;
mod parts;
mod reading;
mod status;

pub use checking::{check, refuse_words};
pub use status::{Cause, CheckStatus};
