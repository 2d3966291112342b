//! Arithmetic of words, by whatever means.
ghost use Rattle.std.specs.Prelude.{◌≡◌, ℕ, ◌≤◌, ◌↔◌, length, IsTrue};
ghost use Rattle.cox_base.specs.Matrix.{CoxeterMatrix, IsWord};
ghost use Rattle.cox_base.specs.IntegerMatrix.{integer_matrix};
ghost use Rattle.cox_base.specs.Bruhat.{IsBelow};
ghost use Rattle.cox_base.specs.Descents.{left_descents};
ghost use Rattle.cox_base.specs.ShortLex.{normal_form};

use crate::wide_heights::LETTERS_OF_128_BITS;
use cox_base::{Coxeter, MAX_LETTERS, Side, Word};

/// Normal forms, descents and Bruhat order of the words of a group, up to some length.
pub trait Words {
    /// The Coxeter matrix of the group.
    ghost matrix: { Self → CoxeterMatrix };

    /// How many letters the words have at most.
    ghost longest: { Self → ℕ };

    /// The Coxeter matrix of the group.
    fn matrix(&self) -> &Coxeter
        ensures { result.now ≡ matrix self.now };

    /// How many letters the words have at most.
    fn longest(&self) -> u32
        ensures value { result ≡ longest self.now }
        ensures limit { result ≤ MAX_LETTERS };

    /// The normal form of the element that w names: its ShortLex-first word. For example in A 2 that of `212` is `121`.
    fn normal_form(&self, w: &Word) -> Word
        requires letters { IsWord (matrix self.now).rank w.now.items }
        requires short { length w.now.items ≤ longest self.now }
        ensures { result.items ≡ normal_form (integer_matrix (matrix self.now)) w.now.items };

    /// The letters s with l(sw) < l(w), rising. For example in A 3 the word `12` has the left descents 1.
    fn left_descents(&self, w: &Word) -> Word
        requires letters { IsWord (matrix self.now).rank w.now.items }
        requires short { length w.now.items ≤ longest self.now }
        ensures { result.items ≡ left_descents (integer_matrix (matrix self.now)) w.now.items };

    /// Whether y <= w in Bruhat order.
    fn below(&self, y: &Word, w: &Word) -> bool
        requires letters_y { IsWord (matrix self.now).rank y.now.items }
        requires letters_w { IsWord (matrix self.now).rank w.now.items }
        requires short_y { length y.now.items ≤ longest self.now }
        requires short_w { length w.now.items ≤ longest self.now }
        ensures { IsTrue result ↔ IsBelow (integer_matrix (matrix self.now)) y.now.items w.now.items };
}

/// Words of at most [`LETTERS_OF_128_BITS`] letters, by heights in 128 bits.
impl Words for Coxeter {
    ghost use Rattle.cox_reflect.specs.declared.wide_heights.TheConstants.{LETTERS_OF_128_BITS};

    ghost matrix = { λ g. g };

    ghost longest = { λ _. LETTERS_OF_128_BITS };

    fn matrix(&self) -> &Coxeter {
        self
    }

    fn longest(&self) -> u32 {
        LETTERS_OF_128_BITS as u32
    }

    fn normal_form(&self, w: &Word) -> Word {
        crate::normal_form(self, w)
    }

    fn left_descents(&self, w: &Word) -> Word {
        crate::descents(self, w, Side::Left)
    }

    fn below(&self, y: &Word, w: &Word) -> bool {
        crate::below(self, y, w)
    }
}
