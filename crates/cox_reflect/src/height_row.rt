//! Heights of roots in numbers of some size, and what is read off them: descents, normal forms and Bruhat order.
ghost use Rattle.std.specs.Prelude.{◌≡◌, ℕ, ◌≤◌, ◌↔◌, List, [], ◌∷◌, reverse, length, IsTrue, IsSome, IfSome, MatchOption, ℤ, pos, ◌<ℤ◌};
ghost use Rattle.cox_base.specs.declared.limits.TheConstants.{MAX_RANK};
ghost use Rattle.cox_base.specs.Matrix.{IsLetter, IsWord};
ghost use Rattle.cox_base.specs.IntegerMatrix.{IntegerMatrix, integer_matrix};
ghost use Rattle.cox_base.specs.Admissible.{IsAdmissible};
ghost use Rattle.cox_base.specs.Bruhat.{IsBelow};
ghost use Rattle.cox_base.specs.Descents.{IsLeftDescent, left_descents};
ghost use Rattle.cox_base.specs.Reduced.{IsReduced};
ghost use Rattle.cox_base.specs.ShortLex.{normal_form};
ghost use Rattle.cox_reflect.specs.RootHeight.{at_letter};
ghost use Rattle.cox_reflect.specs.Height.{AreHeights, AreOfShortElement, AreShortWith};
ghost use Rattle.cox_reflect.specs.LeastDescent.{IsLeastLeftDescent};

use cox_base::{Coxeter, MAX_LETTERS, MAX_RANK, Word};

/// For an element u the heights of the roots u^-1 e(t), t = 1 to the rank: a root's height is the sum of its coordinates.
///
/// The letter t is a left descent of u exactly where its height is negative (Humphreys 5.4).
pub(crate) trait HeightRow: Copy {
    /// The heights: that of the letter t at t - 1. Past the rank they mean nothing.
    ghost values: { Self → List ℤ };

    /// For elements of at most so many letters no height overflows.
    ghost sure: { ℕ };

    /// The heights of the identity: each simple root has the height 1.
    fn of_identity() -> Self
        ensures { (A : IntegerMatrix) → A.rank ≤ MAX_RANK → AreHeights A [] (values result) };

    /// From the heights of u to those of s u. None where a number is too large: what the heights are then is not said.
    fn put_first(&mut self, g: &Coxeter, s: u8) -> Option<()>
        requires letter { IsLetter g.now.rank s }
        ensures heights { IfSome result (λ _. (u : List ℕ) → AreHeights (integer_matrix g.now) u (values self.old)
            → AreHeights (integer_matrix g.now) (s ∷ u) (values self.new)) }
        ensures sure { AreShortWith (integer_matrix g.now) sure s (values self.old) → IsSome result };

    /// Whether the height of the letter s is negative.
    fn is_negative(&self, s: u8) -> bool
        requires letter { IsLetter MAX_RANK s }
        ensures { IsTrue result ↔ (at_letter (values self.now) s <ℤ pos 0) };
}

/// The heights of a word.
pub(crate) fn of_word<H: HeightRow>(g: &Coxeter, w: &[u8]) -> Option<H>
    requires letters { IsWord g.now.rank w.now }
    ensures heights { IfSome result (λ h. AreHeights (integer_matrix g.now) w.now (H.values h)) }
    ensures sure { length w.now ≤ H.sure → IsSome result }
{
    prove!(g.rank() as usize <= MAX_RANK);
    let mut heights = H::of_identity();
    for &s in w.iter().rev() {
        heights.put_first(g, s)?;
    }
    Some(heights)
}

/// The heights of the reversed word, whose left descents are the right descents of the word.
pub(crate) fn of_reversed<H: HeightRow>(g: &Coxeter, w: &[u8]) -> Option<H>
    requires letters { IsWord g.now.rank w.now }
    ensures heights { IfSome result (λ h. AreHeights (integer_matrix g.now) (reverse w.now) (H.values h)) }
    ensures sure { length w.now ≤ H.sure → IsSome result }
{
    prove!(g.rank() as usize <= MAX_RANK);
    let mut heights = H::of_identity();
    for &s in w {
        heights.put_first(g, s)?;
    }
    Some(heights)
}

/// The least left descent, if there is one; only the identity has none.
pub(crate) fn least_descent<H: HeightRow>(heights: &H, rank: u32) -> Option<u8>
    requires limit { rank ≤ MAX_RANK }
    ensures letter { IfSome result (λ s. IsLetter rank s) }
    ensures least { (A : IntegerMatrix) → (u : List ℕ) → IsAdmissible A → A.rank ≡ rank → AreHeights A u (H.values heights.now)
        → MatchOption result ((t : ℕ) → ¬ (IsLeftDescent A u t)) (IsLeastLeftDescent A u) }
{
    for s in 1..rank as u8 + 1 {
        if heights.is_negative(s) {
            return Some(s);
        }
    }
    None
}

/// The left descents, rising.
pub(crate) fn descents_of<H: HeightRow>(heights: &H, rank: u32) -> Word
    requires limit { rank ≤ MAX_RANK }
    ensures descents { (A : IntegerMatrix) → (u : List ℕ) → IsAdmissible A → A.rank ≡ rank → AreHeights A u (H.values heights.now)
        → result.items ≡ left_descents A u }
    ensures letters { IsWord rank result.items }
    ensures short { length result.items ≤ rank }
{
    let mut found = Word::new();
    for letter in 1..rank as u8 + 1 {
        if heights.is_negative(letter) {
            found.push(letter);
        }
    }
    found
}

/// The normal form of the element with these heights, which has at most 255 letters.
///
/// It is read off letter by letter: nf(u) = s nf(su) for the least left descent s of u.
pub(crate) fn normal_form_of<H: HeightRow>(g: &Coxeter, mut heights: H) -> Option<Word>
    requires short { AreOfShortElement (integer_matrix g.now) MAX_LETTERS (H.values heights) }
    ensures form { IfSome result (λ form. (u : List ℕ) → AreHeights (integer_matrix g.now) u (H.values heights)
        → form.items ≡ normal_form (integer_matrix g.now) u) }
    ensures sure { AreOfShortElement (integer_matrix g.now) H.sure (H.values heights) → IsSome result }
{
    let rank = g.rank();
    let mut form = Word::new();
    while let Some(s) = least_descent(&heights, rank) {
        heights.put_first(g, s)?;
        form.push(s);
    }
    Some(form)
}

/// Whether the element with these heights is below that of a reduced word. No normal form is computed.
///
/// By lifting (Humphreys 5.9): y <= s v, where s v is reduced, exactly where the shorter of y and s y is <= v.
pub(crate) fn is_below<H: HeightRow>(g: &Coxeter, mut heights: H, form: &[u8]) -> Option<bool>
    requires letters { IsWord g.now.rank form.now }
    requires reduced { IsReduced (integer_matrix g.now) form.now }
    ensures below { IfSome result (λ answer. (y : List ℕ) → AreHeights (integer_matrix g.now) y (H.values heights)
        → (IsTrue answer ↔ IsBelow (integer_matrix g.now) y form.now)) }
    ensures sure { AreOfShortElement (integer_matrix g.now) H.sure (H.values heights) → IsSome result }
{
    let rank = g.rank();
    for &s in form {
        if heights.is_negative(s) {
            heights.put_first(g, s)?;
        }
    }
    Some(least_descent(&heights, rank).is_none())
}
