//! The texts of answers. Each call appends one text to a vector of bytes. Where memory runs out it appends a prefix of that text, which may
//! be empty.
//!
//! The texts are definitions in `specs/AnswerText.antt`; `Puts` in `specs/Puts.antt` of `cox_poly` says how one is put behind others.
//! It stands on `cox_poly` for bytes, numbers and polynomials, whose calls it hands on, and on `cox_base` for words.
//!
//! - `putting`: counts, lists of numbers, and the end of a line
//! - `element`: elements, lists of elements, and sets of letters; it spells letters
//! - `items`: pairs of an element and a polynomial, members of cells, and elements of W-graphs with their edges
//! - `images`: elements under a letter, and their coefficients, as in the module of a left cell
//! - `line`: whole lines, without their ends
#![tactic(auto)]

mod element;
mod images;
mod items;
mod line;
mod putting;

pub use cox_poly::NoMemory;
pub use cox_poly::append::{put_number, put_text};
pub use element::{put_element, put_next_element, put_set};
pub use images::{put_half, put_image_head, put_term_head};
pub use items::{put_edge, put_head, put_member, put_next_pair};
pub use line::{put_descent, put_refusal, put_truth, put_work};
pub use putting::{put_count, put_end, put_numbers};
