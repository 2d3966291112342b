//! The lines of a text, and the parts of a line: tokens, and numbers among them.
//!
//! A line ends by LF or with the text, and may have [`LINE_LIMIT`] bytes. Tokens are the longest runs of bytes other than space, and a
//! number is a token of 1 to [`MAX_DIGITS`] decimal digits. All three are definitions in `specs/`, and what is read here is exact by them.
//! Nothing takes memory. The crate stands on std alone, and whatever reads or writes lines may stand on it.
//!
//! - `limits`: how long lines may be
//! - `laws`: the laws that determine the lines of a text
//! - `tokens`: the tokens of a line
//! - `number`: numbers as they are written
#![tactic(auto)]

pub mod laws;
mod limits;
mod number;
mod tokens;

pub use limits::LINE_LIMIT;
pub use number::{MAX_DIGITS, read_number, read_number_in};
pub use tokens::{Tokens, first_token, tokens_in};
