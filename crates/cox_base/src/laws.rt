//! Laws of the definitions: functions with an empty body, whose contracts state them.
ghost use Rattle.std.specs.Prelude.{◌≡◌, ℕ, ◌<◌, ◌≤◌, List, IsTrue, length, Result, IsOkAnd};
ghost use Rattle.arrayvec.specs.ArrayVec.{ArrayVec};
ghost use Rattle.cox_base.specs.Matrix.{IsWord, label};
ghost use Rattle.cox_base.specs.Admissible.{IsCoxeterMatrix};
ghost use Rattle.cox_base.specs.NamedType.{is_type, type_rank, type_label, type_matrix};
ghost use Rattle.cox_base.specs.WordText.{word_text};
ghost use Rattle.cox_base.specs.WordReading.{ReadsWord};
ghost use Rattle.cox_base.specs.declared.word.WordFault.{WordFault};

use crate::Coxeter;
use crate::limits::{MAX_LETTERS, MAX_RANK};

/// The matrix of a type is a Coxeter matrix of rank at most `MAX_RANK`, whose labels above the diagonal are those of the table of types.
pub fn labels_of_type(letter: u8, n: u32)
    requires { IsTrue (is_type letter n) }
    ensures matrix { IsCoxeterMatrix (type_matrix letter n) }
    ensures limit { (type_matrix letter n).rank ≤ MAX_RANK }
    ensures labels { (s t : ℕ) → 1 ≤ s → s < t → t ≤ type_rank letter n
        → label (type_matrix letter n) s t ≡ type_label letter n s t }
{}

/// A Coxeter matrix is symmetric.
pub fn symmetric(g: &Coxeter)
    ensures { (s t : ℕ) → label g.now s t ≡ label g.now t s }
{}

/// Reading the text of a word gives the word.
pub fn text_of_word(rank: u32)
    requires { rank ≤ MAX_RANK }
    ensures { (word : List ℕ) (read : Result (ArrayVec ℕ) WordFault)
        → IsWord rank word → length word ≤ MAX_LETTERS → ReadsWord read (word_text rank word) rank
        → IsOkAnd read (λ again. again.items ≡ word) }
{}
