//! R-polynomials of two words.
ghost use Rattle.std.specs.Prelude.{◌≡◌, ◌≢◌, ℕ, ◌+◌, ◌≤◌, ◌↔◌, length, Err, IfOk, IfErr, IsOk, IsTrue};
ghost use Rattle.cox_base.specs.Admissible.{IsAdmissible};
ghost use Rattle.cox_base.specs.Bruhat.{IsBelow};
ghost use Rattle.cox_base.specs.IntegerMatrix.{integer_matrix};
ghost use Rattle.cox_base.specs.Length.{word_length};
ghost use Rattle.cox_base.specs.Reduced.{IsReduced};
ghost use Rattle.cox_base.specs.Matrix.{IsWord};
ghost use Rattle.cox_poly.specs.Polynomial.{coefficient, IsPolynomial};
ghost use Rattle.cox_rpoly.specs.RPolynomial.{r_polynomial};
ghost use Rattle.cox_rpoly.specs.Recursion.{r_along};
ghost use Rattle.cox_rpoly.specs.declared.no_value.NoValue.TheVariants.{NoMemory, Overflow};
ghost use Rattle.cox_rpoly.specs.Depth.{IsDeep};

use crate::MAX_DIFFERENCE;
use crate::elements::Element;
use crate::layers::{layer_of, values};
use crate::no_value::NoValue;
use crate::r_fault::RFault;
use cox_base::Word;
use cox_poly::Poly;
use cox_reflect::{Heights, Words};
use std::alloc::Global;

/// R(y,w), for words of at most `words.longest()` letters; it is 0 unless y <= w.
///
/// `Deep(d)` comes exactly where y <= w and the lengths differ by d, which is more than [`MAX_DIFFERENCE`]. `NoMemory` comes where there is
/// no memory for the values on the way, and so only where y <= w. In A 2, R of the empty word and 121 is `-1+2q-2q^2+q^3`.
pub fn r<W: Words>(alloc: Global, words: &W, y: &Word, w: &Word) -> Result<Poly, RFault>
    requires letters_y { IsWord (W.matrix words.now).rank y.now.items }
    requires letters_w { IsWord (W.matrix words.now).rank w.now.items }
    requires short_y { length y.now.items ≤ W.longest words.now }
    requires short_w { length w.now.items ≤ W.longest words.now }
    ensures value { IfOk result (λ p. (k : ℕ)
        → coefficient p k ≡ r_polynomial (integer_matrix (W.matrix words.now)) y.now.items w.now.items k) }
    ensures normal { IfOk result IsPolynomial }
    ensures deep { (d : ℕ) → (result ≡ Err (RFault.Deep d)) ↔ IsDeep (integer_matrix (W.matrix words.now)) y.now.items w.now.items d }
    ensures outside { ¬ IsBelow (integer_matrix (W.matrix words.now)) y.now.items w.now.items → IsOk result }
{
    let _rank = words.matrix().rank();
    if !words.below(y, w) {
        return Ok(Poly::zero(alloc)?);
    }
    r_below(alloc, words, y, w)
}

/// R of two words of elements of which the one is below the other.
fn r_below<W: Words>(alloc: Global, words: &W, y: &Word, w: &Word) -> Result<Poly, RFault>
    requires admissible { IsAdmissible (integer_matrix (W.matrix words.now)) }
    requires letters_y { IsWord (W.matrix words.now).rank y.now.items }
    requires letters_w { IsWord (W.matrix words.now).rank w.now.items }
    requires short_y { length y.now.items ≤ W.longest words.now }
    requires short_w { length w.now.items ≤ W.longest words.now }
    requires below { IsBelow (integer_matrix (W.matrix words.now)) y.now.items w.now.items }
    ensures value { IfOk result (λ p. (k : ℕ)
        → coefficient p k ≡ r_polynomial (integer_matrix (W.matrix words.now)) y.now.items w.now.items k) }
    ensures normal { IfOk result IsPolynomial }
    ensures deep { (d : ℕ) → (result ≡ Err (RFault.Deep d)) ↔ IsDeep (integer_matrix (W.matrix words.now)) y.now.items w.now.items d }
{
    let form = words.normal_form(w);
    let difference = form.len() - words.normal_form(y).len();
    if difference > MAX_DIFFERENCE {
        return Err(RFault::Deep(difference as u32));
    }
    match along_any(alloc, words, y, form.as_slice()) {
        Ok(p) => Ok(p),
        Err(_) => Err(RFault::NoMemory),
    }
}

/// R of an element and that of a reduced word, which is above it: by heights, and where a number overflows by normal forms.
fn along_any<W: Words>(alloc: Global, words: &W, y: &Word, form: &[u8]) -> Result<Poly, NoValue>
    requires admissible { IsAdmissible (integer_matrix (W.matrix words.now)) }
    requires letters_y { IsWord (W.matrix words.now).rank y.now.items }
    requires letters { IsWord (W.matrix words.now).rank form.now }
    requires short_y { length y.now.items ≤ W.longest words.now }
    requires short { length form.now ≤ W.longest words.now }
    requires reduced { IsReduced (integer_matrix (W.matrix words.now)) form.now }
    requires below { IsBelow (integer_matrix (W.matrix words.now)) y.now.items form.now }
    requires near { length form.now ≤ word_length (integer_matrix (W.matrix words.now)) y.now.items + MAX_DIFFERENCE }
    ensures value { IfOk result (λ p. (k : ℕ) → coefficient p k ≡ r_along (integer_matrix (W.matrix words.now)) y.now.items form.now k) }
    ensures normal { IfOk result IsPolynomial }
    ensures sure { IfErr result (λ e. e ≡ NoMemory) }
{
    let by_heights = along::<W, Heights>(alloc, words, y, form);
    or_where_overflows(by_heights, || along::<W, Word>(alloc, words, y, form))
}

/// What was found, or what another way finds where a number overflowed on the first.
fn or_where_overflows<T, F: FnOnce() -> Result<T, NoValue>>(
    found: Result<T, NoValue>,
    another: F,
) -> Result<T, NoValue>
    requires { F.IsAlwaysCallable another }
    ensures overflow { found ≡ Err Overflow → F.post another result }
    ensures found { found ≢ Err Overflow → result ≡ found }
{
    match found {
        Err(NoValue::Overflow) => another(),
        found => found,
    }
}

/// R of an element and that of a reduced word, which is above it, by elements of one kind.
fn along<W: Words, E: Element>(
    alloc: Global,
    words: &W,
    y: &Word,
    form: &[u8],
) -> Result<Poly, NoValue>
    requires admissible { IsAdmissible (integer_matrix (W.matrix words.now)) }
    requires letters_y { IsWord (W.matrix words.now).rank y.now.items }
    requires letters { IsWord (W.matrix words.now).rank form.now }
    requires short_y { length y.now.items ≤ W.longest words.now }
    requires short { length form.now ≤ W.longest words.now }
    requires reduced { IsReduced (integer_matrix (W.matrix words.now)) form.now }
    requires below { IsBelow (integer_matrix (W.matrix words.now)) y.now.items form.now }
    requires near { length form.now ≤ word_length (integer_matrix (W.matrix words.now)) y.now.items + MAX_DIFFERENCE }
    ensures value { IfOk result (λ p. (k : ℕ) → coefficient p k ≡ r_along (integer_matrix (W.matrix words.now)) y.now.items form.now k) }
    ensures normal { IfOk result IsPolynomial }
    ensures sure { IsTrue E.is_sure → IfErr result (λ e. e ≡ NoMemory) }
{
    let Some(x) = E::of_word(words, y) else {
        return Err(NoValue::Overflow);
    };
    let values = values(alloc, words, form, layer_of(alloc, x)?)?;
    Ok(Poly::of(alloc, &values[0])?)
}
