//! Elements, and what the recursion asks of them: by heights in 64 bits, where calls fail if a number overflows, and by normal forms.
ghost use Rattle.std.specs.Prelude.{◌≡◌, ℕ, List, Bool, true, false, ◌+◌, ◌<◌, ◌≤◌, ◌∷◌, ◌↔◌, length, IsTrue, IfSome, IsSome};
ghost use Rattle.cox_base.specs.Matrix.{IsLetter, IsWord};
ghost use Rattle.cox_base.specs.IntegerMatrix.{IntegerMatrix, integer_matrix};
ghost use Rattle.cox_base.specs.Admissible.{IsAdmissible};
ghost use Rattle.cox_base.specs.Reduced.{IsReduced};
ghost use Rattle.cox_base.specs.Descents.{IsLeftDescent};
ghost use Rattle.cox_base.specs.Bruhat.{IsBelow};
ghost use Rattle.cox_rpoly.specs.ElementValues.{IsElementBelow, IsShortElement};

use cox_base::{MAX_LETTERS, Word, copy_word};
use cox_reflect::{Heights, Words, below_reduced};
use std::hash::Hash;

/// An element of a group.
pub(crate) trait Element: Eq + Hash + Drop {
    /// It is the element of a word.
    ghost is_of: { IntegerMatrix → List ℕ → Self → Type 0 };

    /// No call fails.
    ghost is_sure: { Bool };

    /// The element of a word.
    fn of_word<W: Words>(words: &W, w: &Word) -> Option<Self>
        requires letters { IsWord (W.matrix words.now).rank w.now.items }
        requires short { length w.now.items ≤ W.longest words.now }
        ensures of { IfSome result (λ x. is_of (integer_matrix (W.matrix words.now)) w.now.items x) }
        ensures sure { IsTrue is_sure → IsSome result };

    /// The same element once more.
    fn copied(&self) -> Self
        ensures { result ≡ self.now };

    /// The element s x, for an element x below the reduced word that begins with s and goes on with `rest`.
    fn times<W: Words>(&self, words: &W, s: u8, rest: &[u8]) -> Option<Self>
        requires letter { IsLetter (W.matrix words.now).rank s }
        requires letters { IsWord (W.matrix words.now).rank rest.now }
        requires reduced { IsReduced (integer_matrix (W.matrix words.now)) (s ∷ rest.now) }
        requires short { length rest.now + 1 ≤ W.longest words.now }
        requires below { IsElementBelow is_of (integer_matrix (W.matrix words.now)) (s ∷ rest.now) self.now }
        ensures times { IfSome result (λ y. (u : List ℕ) → is_of (integer_matrix (W.matrix words.now)) u self.now
            → is_of (integer_matrix (W.matrix words.now)) (s ∷ u) y) }
        ensures sure { IsTrue is_sure → IsSome result };

    /// Whether s x is shorter than x.
    fn is_shortened<W: Words>(&self, words: &W, s: u8) -> bool
        requires letter { IsLetter (W.matrix words.now).rank s }
        requires short { IsShortElement is_of (integer_matrix (W.matrix words.now)) (W.longest words.now) self.now }
        ensures { (u : List ℕ) → is_of (integer_matrix (W.matrix words.now)) u self.now
            → (IsTrue result ↔ IsLeftDescent (integer_matrix (W.matrix words.now)) u s) };

    /// Whether the element is below that of a reduced word.
    fn is_below<W: Words>(&self, words: &W, form: &[u8]) -> Option<bool>
        requires letters { IsWord (W.matrix words.now).rank form.now }
        requires reduced { IsReduced (integer_matrix (W.matrix words.now)) form.now }
        requires short_form { length form.now ≤ W.longest words.now }
        requires short { IsShortElement is_of (integer_matrix (W.matrix words.now)) (W.longest words.now) self.now }
        ensures below { IfSome result (λ answer. (u : List ℕ) → is_of (integer_matrix (W.matrix words.now)) u self.now
            → (IsTrue answer ↔ IsBelow (integer_matrix (W.matrix words.now)) u form.now)) }
        ensures sure { IsTrue is_sure → IsSome result };

    /// What the test of equality takes for equal is equal.
    ghost same: { (x y : Self) → Self.eq x y ≡ true → x ≡ y };

    /// An element has the same descents by each of its words.
    ghost same_descents: { (A : IntegerMatrix) → IsAdmissible A → (u v : List ℕ) (x : Self) → is_of A u x → is_of A v x
        → (t : ℕ) → IsLeftDescent A u t → IsLeftDescent A v t };
}

impl Element for Heights {
    ghost use Rattle.std.specs.Prelude.{false};
    ghost use Rattle.cox_rpoly.specs.ElementValues.{is_of_heights};
    ghost use Rattle.cox_rpoly.specs.ElementLaws.{same_heights, same_descents_by_heights};

    ghost is_of = { is_of_heights };

    ghost is_sure = { false };

    fn of_word<W: Words>(words: &W, w: &Word) -> Option<Heights> {
        Heights::of_word(words.matrix(), w)
    }

    fn copied(&self) -> Heights {
        *self
    }

    fn times<W: Words>(&self, words: &W, s: u8, _rest: &[u8]) -> Option<Heights> {
        let mut heights = *self;
        heights.prepend(words.matrix(), s)?;
        Some(heights)
    }

    fn is_shortened<W: Words>(&self, words: &W, s: u8) -> bool {
        let _rank = words.matrix().rank();
        self.is_descent(s)
    }

    fn is_below<W: Words>(&self, words: &W, form: &[u8]) -> Option<bool> {
        below_reduced(words.matrix(), *self, form)
    }

    ghost same = { same_heights };

    ghost same_descents = { same_descents_by_heights };
}

impl Element for Word {
    ghost use Rattle.std.specs.Prelude.{true};
    ghost use Rattle.cox_rpoly.specs.ElementValues.{is_of_form};
    ghost use Rattle.cox_rpoly.specs.ElementLaws.{same_form, same_descents_by_form};

    ghost is_of = { is_of_form };

    ghost is_sure = { true };

    fn of_word<W: Words>(words: &W, w: &Word) -> Option<Word> {
        Some(words.normal_form(w))
    }

    fn copied(&self) -> Word {
        copy_word(self)
    }

    fn times<W: Words>(&self, words: &W, s: u8, rest: &[u8]) -> Option<Word> {
        let _rank = words.matrix().rank();
        let _longest = words.longest();
        // an element of the length of the word above it is that word's
        if rest.len() < self.len() {
            return Some(words.normal_form(&word_of(rest)));
        }
        Some(words.normal_form(&with_first(s, self)))
    }

    fn is_shortened<W: Words>(&self, words: &W, s: u8) -> bool {
        let _rank = words.matrix().rank();
        let _longest = words.longest();
        words.left_descents(self).as_slice().contains(&s)
    }

    fn is_below<W: Words>(&self, words: &W, form: &[u8]) -> Option<bool> {
        let _rank = words.matrix().rank();
        let _longest = words.longest();
        Some(words.below(self, &word_of(form)))
    }

    ghost same = { same_form };

    ghost same_descents = { same_descents_by_form };
}

/// The letters as a word.
fn word_of(letters: &[u8]) -> Word
    requires { length letters.now ≤ MAX_LETTERS }
    ensures { result.items ≡ letters.now }
{
    let mut word = Word::new();
    match word.try_extend_from_slice(letters) {
        Ok(()) => word,
        Err(_) => unreachable!(),
    }
}

/// The word s x.
fn with_first(s: u8, x: &Word) -> Word
    requires { length x.now.items < MAX_LETTERS }
    ensures { result.items ≡ s ∷ x.now.items }
{
    let mut word = Word::new();
    word.push(s);
    match word.try_extend_from_slice(x.as_slice()) {
        Ok(()) => word,
        Err(_) => unreachable!(),
    }
}
