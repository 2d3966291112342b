//! Coxeter groups as groups of integer matrices (Humphreys, "Reflection Groups and Coxeter Groups", chapter 5): descents, lengths,
//! normal forms and Bruhat order of words, by the signs of roots. Nothing here takes memory.
//!
//! An element is told by a word. Contracts say what is computed by the definitions of `cox_base`: the normal form is the ShortLex-first
//! word of the element, its length is that word's, and y <= w where a subword of the normal form of w names y. The code reads descents off
//! the heights of as many roots as there are letters. In 64 bits a call gives None where a sum overflows, for words of any length; in 128
//! bits none overflows for words of at most 63 letters. `Words` is what the crates above ask of a group, by this or another arithmetic.
//!
//! - `laws`: the theory of lengths, roots, reduced words, normal forms and Bruhat order, for every admissible integer matrix; the lemmas
//!   behind it are in `proofs/`, for the crates above
//! - `height_row`: what is read off heights, in numbers of any size
//! - `heights`: heights in 64 bits
//! - `wide_heights`: heights in 128 bits
//! - `coordinates`: the coordinates of a root
//! - `forms`: descents, lengths and normal forms of words of at most 63 letters
//! - `order`: Bruhat order of words of at most 63 letters
//! - `words`: what an arithmetic of words gives
#![tactic(auto)]

mod coordinates;
mod forms;
mod height_row;
mod heights;
pub mod laws;
mod order;
mod wide_heights;
mod words;

pub use coordinates::image;
pub use forms::{descents, length, normal_form};
pub use heights::{Heights, LETTERS_OF_64_BITS, below_reduced};
pub use order::below;
pub use wide_heights::LETTERS_OF_128_BITS;
pub use words::Words;
