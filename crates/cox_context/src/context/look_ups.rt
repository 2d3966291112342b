//! What is known of a member by its number: its word, shifts, inverse, length, descents and order.
ghost use Rattle.std.specs.Prelude.{◌≡◌, ℕ, ◌+◌, ◌<◌, ◌≤◌, ◌↔◌, ◌∷◌, ◌++◌, [], length, reverse, IsTrue, IsBitSet};
ghost use Rattle.cox_base.specs.Matrix.{IsLetter};
ghost use Rattle.cox_base.specs.IntegerMatrix.{integer_matrix};
ghost use Rattle.cox_base.specs.ShortLex.{normal_form};
ghost use Rattle.cox_base.specs.Descents.{IsLeftDescent, IsRightDescent, left_descents, right_descents};
ghost use Rattle.cox_base.specs.Bruhat.{IsBelow};
ghost use Rattle.cox_context.specs.Numbers.{word_at};
ghost use Rattle.cox_context.specs.Numbering.{IsNumberOf};

use crate::context::Context;
use crate::descents::letters_of;
use crate::inverses::kept_inverse;
use crate::members::Link;
use crate::shifts::entry_by;
use cox_base::{MAX_LETTERS, Word};

impl Context {
    /// The member with a number, as its normal form.
    pub fn word(&self, i: u32) -> Word
        requires { i < length self.now.members }
        ensures { result.items ≡ word_at self.now.members i }
    {
        self.listing.members.word(i)
    }

    /// The first letter of a member other than the identity, and the number of the rest.
    pub(crate) fn link(&self, i: u32) -> Link
        requires some { 0 < i }
        requires member { i < length self.now.members }
        ensures word { word_at self.now.members i ≡ result.first ∷ word_at self.now.members result.rest }
        ensures inward { result.rest < i }
    {
        self.listing.members.link(i)
    }

    /// The number of s x for the member x with the number i; `None` exactly where s x is no member.
    pub fn left(&self, s: u8, i: u32) -> Option<u32>
        requires letter { IsLetter self.now.matrix.rank s }
        requires member { i < length self.now.members }
        ensures { IsNumberOf self.now.members (normal_form (integer_matrix self.now.matrix) (s ∷ word_at self.now.members i)) result }
    {
        let (narrow, table) = (self.narrow_left.as_slice(), self.listing.left.as_slice());
        entry_by(narrow, table, self.group.rank(), s, i)
    }

    /// The number of x s for the member x with the number i; `None` exactly where x s is no member.
    pub fn right(&self, s: u8, i: u32) -> Option<u32>
        requires letter { IsLetter self.now.matrix.rank s }
        requires member { i < length self.now.members }
        ensures { IsNumberOf self.now.members (normal_form (integer_matrix self.now.matrix) (word_at self.now.members i ++ s ∷ [])) result }
    {
        let (narrow, table) = (self.narrow_right.as_slice(), self.tables.right.as_slice());
        entry_by(narrow, table, self.group.rank(), s, i)
    }

    /// The number of x^-1 for the member x with the number i; `None` exactly where x^-1 is no member. In A 3 the interval of `12` has four
    /// elements: `12` has none in it, and the other three are their own inverses.
    ///
    /// Where inverses are not kept, it goes along the word of the member.
    pub fn inverse(&self, i: u32) -> Option<u32>
        requires member { i < length self.now.members }
        ensures { IsNumberOf self.now.members (normal_form (integer_matrix self.now.matrix) (reverse (word_at self.now.members i))) result }
    {
        if self.tables.inverses.is_empty() {
            return self.inverse_along(i);
        }
        kept_inverse(self.tables.inverses.as_slice(), i)
    }

    /// The same along the word of the member: the inverse of s v is the inverse of v with s behind it.
    #[cold]
    fn inverse_along(&self, i: u32) -> Option<u32>
        requires member { i < length self.now.members }
        ensures { IsNumberOf self.now.members (normal_form (integer_matrix self.now.matrix) (reverse (word_at self.now.members i))) result }
    {
        let _len = self.len();
        if i == 0 {
            return Some(0);
        }
        let link = self.link(i);
        let inverse = self.inverse_along(link.rest)?;
        self.right(link.first, inverse)
    }

    /// The length of the member with the number i.
    pub fn length(&self, i: u32) -> u32
        requires { i < length self.now.members }
        ensures length { result ≡ length (word_at self.now.members i) }
        ensures short { result ≤ MAX_LETTERS }
    {
        self.listing.members.length(i)
    }

    /// Whether x <= y in Bruhat order, for the members x and y with the numbers i and j.
    ///
    /// By lifting (Humphreys 5.9) along the word of y: each letter of it that shortens what is left of x is taken off.
    pub fn below(&self, i: u32, j: u32) -> bool
        requires i { i < length self.now.members }
        requires j { j < length self.now.members }
        ensures { IsTrue result ↔ IsBelow (integer_matrix self.now.matrix) (word_at self.now.members i) (word_at self.now.members j) }
    {
        prove!(self.len() > 0);
        let mut rest = i;
        let mut upper = j;
        while upper > 0 {
            let link = self.link(upper);
            if let Some(k) = self.left(link.first, rest) {
                rest = rest.min(k);
            }
            upper = link.rest;
        }
        rest == 0
    }

    /// The letters s with l(s x) < l(x) for the member x with the number i, rising.
    pub fn left_descents(&self, i: u32) -> Word
        requires { i < length self.now.members }
        ensures { result.items ≡ left_descents (integer_matrix self.now.matrix) (word_at self.now.members i) }
    {
        letters_of(self.left_descent_set(i), self.group.rank())
    }

    /// The letters s with l(x s) < l(x) for the member x with the number i, rising.
    pub fn right_descents(&self, i: u32) -> Word
        requires { i < length self.now.members }
        ensures { result.items ≡ right_descents (integer_matrix self.now.matrix) (word_at self.now.members i) }
    {
        letters_of(self.right_descent_set(i), self.group.rank())
    }

    /// The same letters as a set: bit s - 1 is 1 exactly where l(s x) < l(x).
    pub fn left_descent_set(&self, i: u32) -> u16
        requires { i < length self.now.members }
        ensures { (k : ℕ) → IsBitSet result k ↔ IsLeftDescent (integer_matrix self.now.matrix) (word_at self.now.members i) (k + 1) }
    {
        self.tables.left_descents[i as usize]
    }

    /// The same letters as a set: bit s - 1 is 1 exactly where l(x s) < l(x).
    pub fn right_descent_set(&self, i: u32) -> u16
        requires { i < length self.now.members }
        ensures { (k : ℕ) → IsBitSet result k ↔ IsRightDescent (integer_matrix self.now.matrix) (word_at self.now.members i) (k + 1) }
    {
        self.tables.right_descents[i as usize]
    }
}
