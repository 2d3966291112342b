//! Coxeter matrices and words: what all other crates speak of.
//!
//! A `Coxeter` is a Coxeter matrix with labels 2, 3, 4, 6 and infinity, and its integer matrix. A `Word` is a list of letters, 1 to the
//! rank. Contracts speak of the definitions in `specs/`: matrices, the matrix of a word, normal forms, length, descents and Bruhat order.
//! It is proved that each matrix is the one that its type or its labels name, with the entries that belong to its labels; that exactly the
//! types of the table, the labels 0, 2, 3, 4 and 6, and the texts of words are accepted, and what is said of the others; and the laws of
//! `laws`. Nothing here takes memory: vectors are those of `arrayvec`, and the faults are derived by `thiserror`.
//!
//! - `limits`: the greatest rank and the longest word
//! - `coxeter`: the matrix, its labels and entries, and how it is made of labels
//! - `named_type`: the matrices of the named types
//! - `word`: words, and their ShortLex order
//! - `reading`, `pieces`, `spelling`: how words are read and written
//! - `side`: left and right
//! - `laws`: what holds of the definitions
//! - `copy`: copies of vectors
#![tactic(auto)]

mod copy;
mod coxeter;
pub mod laws;
mod limits;
mod named_type;
mod pieces;
mod reading;
mod side;
mod spelling;
mod word;

pub use copy::copy_of;
pub use coxeter::{Coxeter, Label};
pub use limits::{MAX_DIGIT_RANK, MAX_LABELS, MAX_LETTERS, MAX_RANK};
pub use named_type::NotAType;
pub use reading::read_word;
pub use side::Side;
pub use spelling::separator;
pub use word::{Word, WordFault, copy_word, shortlex};
