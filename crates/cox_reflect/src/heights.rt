//! Heights of roots in 64 bits.
ghost use Rattle.std.specs.Prelude.{◌≡◌, ℕ, ◌≤◌, ◌↔◌, List, [], ◌∷◌, reverse, length, IsTrue, IsSome, IfSome, MatchOption};
ghost use Rattle.cox_base.specs.Matrix.{IsLetter, IsWord};
ghost use Rattle.cox_base.specs.IntegerMatrix.{IntegerMatrix, integer_matrix};
ghost use Rattle.cox_base.specs.Admissible.{IsAdmissible};
ghost use Rattle.cox_base.specs.Bruhat.{IsBelow};
ghost use Rattle.cox_base.specs.Descents.{IsLeftDescent, left_descents};
ghost use Rattle.cox_base.specs.Reduced.{IsReduced};
ghost use Rattle.cox_base.specs.ShortLex.{normal_form};
ghost use Rattle.cox_reflect.specs.Height.{AreHeights, AreOfShortElement, AreShortWith};
ghost use Rattle.cox_reflect.specs.LeastDescent.{IsLeastLeftDescent};

use crate::height_row::{
    HeightRow, descents_of, is_below, least_descent, normal_form_of, of_reversed, of_word,
};
use cox_base::{Coxeter, MAX_LETTERS, MAX_RANK, Word};

/// No height of a word of at most so many letters needs more than 64 bits.
pub const LETTERS_OF_64_BITS: usize = 31;

/// A number of at most this size has 64 bits when an entry of the matrix multiplies it.
const LARGEST: u64 = i64::MAX as u64 / 3;

/// For an element u the heights of the roots u^-1 e(t), t = 1 to the rank: a root's height is the sum of its coordinates.
///
/// The letter t is a left descent of u exactly where its height is negative (Humphreys 5.4). Sums are checked: a call gives None where a
/// number is too large. Contracts exclude that for elements of at most [`LETTERS_OF_64_BITS`] letters. Of others they say which word the
/// heights are of, and not that there are any.
#[derive(Clone, Copy, PartialEq, Eq, Hash)]
pub struct Heights {
    // that of the letter t at t - 1; past the rank they mean nothing
    values: [i64; MAX_RANK],
}

impl Heights {
    /// The heights of the identity: each simple root has the height 1.
    pub fn identity() -> Heights
        ensures { (A : IntegerMatrix) → A.rank ≤ MAX_RANK → AreHeights A [] result.values }
    {
        Heights::of_identity()
    }

    /// The heights of a word. For example in A 2 those of `1` are -1 and 2.
    pub fn of_word(g: &Coxeter, w: &Word) -> Option<Heights>
        requires letters { IsWord g.now.rank w.now.items }
        ensures heights { IfSome result (λ h. AreHeights (integer_matrix g.now) w.now.items h.values) }
        ensures sure { length w.now.items ≤ LETTERS_OF_64_BITS → IsSome result }
    {
        of_word(g, w.as_slice())
    }

    /// The heights of the reversed word, whose left descents are the right descents of the word.
    pub fn of_reversed(g: &Coxeter, w: &Word) -> Option<Heights>
        requires letters { IsWord g.now.rank w.now.items }
        ensures heights { IfSome result (λ h. AreHeights (integer_matrix g.now) (reverse w.now.items) h.values) }
        ensures sure { length w.now.items ≤ LETTERS_OF_64_BITS → IsSome result }
    {
        of_reversed(g, w.as_slice())
    }

    /// From the heights of u to those of s u. None where a number is too large: what the heights are then is not said.
    pub fn prepend(&mut self, g: &Coxeter, s: u8) -> Option<()>
        requires letter { IsLetter g.now.rank s }
        ensures heights { IfSome result (λ _. (u : List ℕ) → AreHeights (integer_matrix g.now) u self.old.values
            → AreHeights (integer_matrix g.now) (s ∷ u) self.new.values) }
        ensures sure { AreShortWith (integer_matrix g.now) LETTERS_OF_64_BITS s self.old.values → IsSome result }
    {
        self.put_first(g, s)
    }

    /// Whether s is a left descent.
    pub fn is_descent(&self, s: u8) -> bool
        requires letter { IsLetter MAX_RANK s }
        ensures { (A : IntegerMatrix) → (u : List ℕ) → IsAdmissible A → IsLetter A.rank s → AreHeights A u self.now.values
            → (IsTrue result ↔ IsLeftDescent A u s) }
    {
        self.is_negative(s)
    }

    /// The least left descent, if there is one; only the identity has none.
    pub fn least_descent(&self, rank: u32) -> Option<u8>
        requires limit { rank ≤ MAX_RANK }
        ensures letter { IfSome result (λ s. IsLetter rank s) }
        ensures least { (A : IntegerMatrix) → (u : List ℕ) → IsAdmissible A → A.rank ≡ rank → AreHeights A u self.now.values
            → MatchOption result ((t : ℕ) → ¬ (IsLeftDescent A u t)) (IsLeastLeftDescent A u) }
    {
        least_descent(self, rank)
    }

    /// The left descents, rising.
    pub fn descents(&self, rank: u32) -> Word
        requires limit { rank ≤ MAX_RANK }
        ensures descents { (A : IntegerMatrix) → (u : List ℕ) → IsAdmissible A → A.rank ≡ rank → AreHeights A u self.now.values
            → result.items ≡ left_descents A u }
        ensures letters { IsWord rank result.items }
        ensures short { length result.items ≤ rank }
    {
        descents_of(self, rank)
    }

    /// The normal form of the element, which has at most 255 letters.
    pub fn normal_form(self, g: &Coxeter) -> Option<Word>
        requires short { AreOfShortElement (integer_matrix g.now) MAX_LETTERS self.values }
        ensures form { IfSome result (λ form. (u : List ℕ) → AreHeights (integer_matrix g.now) u self.values
            → form.items ≡ normal_form (integer_matrix g.now) u) }
        ensures sure { AreOfShortElement (integer_matrix g.now) LETTERS_OF_64_BITS self.values → IsSome result }
    {
        normal_form_of(g, self)
    }
}

/// Whether the element with these heights is below that of a reduced word. None where a number is too large.
///
/// For example in A 2 the element with the heights of `1` is below the word 2, 1.
pub fn below_reduced(g: &Coxeter, heights: Heights, form: &[u8]) -> Option<bool>
    requires letters { IsWord g.now.rank form.now }
    requires reduced { IsReduced (integer_matrix g.now) form.now }
    ensures below { IfSome result (λ answer. (y : List ℕ) → AreHeights (integer_matrix g.now) y heights.values
        → (IsTrue answer ↔ IsBelow (integer_matrix g.now) y form.now)) }
    ensures sure { AreOfShortElement (integer_matrix g.now) LETTERS_OF_64_BITS heights.values → IsSome result }
{
    is_below(g, heights, form)
}

impl HeightRow for Heights {
    ghost use Rattle.cox_reflect.specs.declared.heights.TheConstants.{LETTERS_OF_64_BITS};

    ghost values = { λ h. h.values };

    ghost sure = { LETTERS_OF_64_BITS };

    fn of_identity() -> Heights {
        Heights {
            values: [1; MAX_RANK],
        }
    }

    fn put_first(&mut self, g: &Coxeter, s: u8) -> Option<()> {
        let rank = g.rank() as u8;
        let own = self.values[s as usize - 1];
        if own.unsigned_abs() > LARGEST {
            return None;
        }
        for t in 1..rank + 1 {
            let place = t as usize - 1;
            self.values[place] = self.values[place].checked_sub(g.entry(s, t) * own)?;
        }
        Some(())
    }

    fn is_negative(&self, s: u8) -> bool {
        self.values[s as usize - 1] < 0
    }
}
