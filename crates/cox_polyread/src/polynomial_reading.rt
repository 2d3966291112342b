//! The text of a polynomial, read back.
ghost use Rattle.std.specs.Prelude.{◌≡◌, ◌↔◌, ◌-◌, ◌≤◌, ◌<◌, ◌++◌, ◌∷◌, [], pos, length, replicate, codes, IsTrue, OnOk, IfOk, Err};
ghost use Rattle.std.specs.Prelude.{MatchOption, FitsSigned, ℤ, List, ◌⊎◌, Ok};
ghost use Rattle.std.specs.Int.{w64};
ghost use Rattle.cox_polyread.specs.ReadNumerals.{value_of};
ghost use Rattle.cox_polyread.specs.PolynomialReading.{IsPolynomialText, IsTextOf, IsTextOfLarge, Fits, signed};
ghost use Rattle.cox_polyread.specs.declared.text_fault.TextFault.TheVariants.{NotAPolynomial, TooLarge, NoMemory};

use crate::term_reading::{coefficient_of, degree_within, is_below, read_term, term_len};
use crate::text_fault::TextFault;
use cox_poly::{NoMemory, Poly};
use std::alloc::Global;

// Whether the text is `0`.
fn is_zero(text: &[u8]) -> bool
    ensures { IsTrue result ↔ (text.now ≡ codes "0") }
{
    text.len() == 1 && text[0] == b'0'
}

// Puts a coefficient behind the others, with zeros between.
fn push_coefficient(coefficients: &mut Vec<i64>, degree: u32, c: i64) -> Result<(), NoMemory>
    requires { length coefficients.old.items ≤ degree }
    ensures { OnOk result (coefficients.new.items
        ≡ coefficients.old.items ++ (replicate (degree - length coefficients.old.items) (pos 0) ++ c ∷ [])) }
{
    coefficients.resize(degree as usize, 0)?;
    coefficients.push(c)?;
    Ok(())
}

// The degree and the coefficient with these digits, if they fit.
fn fitting(negative: bool, size: &[u8], degree: &[u8], most: u32) -> Option<(u32, i64)>
    ensures { MatchOption result
        (value_of degree.now ≤ most → FitsSigned w64 (signed negative (value_of size.now)) → ⊥)
        (λ t. (t.0 ≡ value_of degree.now) × (t.0 ≤ most) × (t.1 ≡ signed negative (value_of size.now))) }
{
    let k = degree_within(degree, most)?;
    let c = coefficient_of(negative, size)?;
    Some((k, c))
}

/// The polynomial with this text, which is as [`Poly::put_text`] writes it; no degree may be above `most`.
///
/// `NotAPolynomial` comes exactly where no polynomial has this text, whatever the size of its coefficients and degrees.
/// `TooLarge` comes where one has it, and a degree is above `most` or a coefficient has more than 64 bits. Memory is
/// asked for as the terms are read, for `most + 1` coefficients and no more. The time is in proportion to the bytes
/// and to `most`.
///
/// `1-2q^2` is read, and none of `1q`, `q^1`, `+1`, `q+1` and `01` is.
pub fn read_polynomial(alloc: Global, text: &[u8], most: u32) -> Result<Poly, TextFault>
    ensures read { IfOk result (λ p. IsTextOf p text.now) }
    ensures within { IfOk result (Fits most) }
    ensures foreign { result ≡ Err NotAPolynomial → ¬ IsPolynomialText text.now }
    ensures too_large { result ≡ Err TooLarge → IsTextOfLarge most text.now }
    ensures again { (p : List ℤ) → IsTextOf p text.now → Fits most p → (result ≡ Ok p) ⊎ (result ≡ Err NoMemory) }
{
    let mut coefficients = Vec::new(alloc);
    if is_zero(text) {
        return Ok(Poly::from_trimmed(coefficients));
    }
    let mut rest = text;
    let mut first = true;
    // the digits of the degree of the last term
    let mut last: &[u8] = &text[..0];
    let mut fits = true;
    while !rest.is_empty() {
        let (piece, behind) = rest.split_at(term_len(rest));
        let Some(term) = read_term(first, piece) else {
            return Err(TextFault::NotAPolynomial);
        };
        if !first && !is_below(last, term.degree) {
            return Err(TextFault::NotAPolynomial);
        }
        match fitting(term.negative, term.size, term.degree, most) {
            Some((degree, c)) => {
                if fits {
                    push_coefficient(&mut coefficients, degree, c)?;
                }
            }
            None => fits = false,
        }
        first = false;
        last = term.degree;
        rest = behind;
    }
    if first {
        Err(TextFault::NotAPolynomial)
    } else if fits {
        Ok(Poly::from_trimmed(coefficients))
    } else {
        Err(TextFault::TooLarge)
    }
}
