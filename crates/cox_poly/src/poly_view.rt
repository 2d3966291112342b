//! A polynomial whose coefficients another value keeps.
ghost use Rattle.std.specs.Prelude.{◌≡◌, ◌↔◌, ◌<◌, ◌≤◌, ◌+◌, [], length, vec_len, vec_capacity, IfSome, IsNone, OnErr};
ghost use Rattle.cox_poly.specs.Polynomial.{coefficient, IsPolynomial, IsStorable, HasSmallCoefficients, IsDegree};
ghost use Rattle.cox_poly.specs.Puts.{Puts};
ghost use Rattle.cox_poly.specs.PolynomialText.{polynomial_text};

use crate::NoMemory;
use crate::polynomial_text::put_polynomial;
use std::marker::Model;

/// A polynomial whose coefficients another value keeps, as a [`Poly`](crate::Poly) or a
/// [`PolyList`](crate::PolyList).
///
/// Contracts see the list of its coefficients, as they do of a [`Poly`](crate::Poly).
#[derive(Drop)]
pub struct PolyView<'a> {
    coefficients: &'a [i64],
}

impl<'a> Model for PolyView<'a> {
    ghost use Rattle.std.specs.Prelude.{List, ℤ};
    ghost use Rattle.cox_poly.specs.Polynomial.{IsStorable};

    ghost Value = { List ℤ };

    ghost view = { λ p. p.coefficients.now };

    ghost invariant = { λ p. IsStorable p.coefficients.now };
}

impl<'a> PolyView<'a> {
    // The polynomial with these coefficients, of which the last is not 0.
    pub(crate) fn of_trimmed(coefficients: &'a [i64]) -> PolyView<'a>
        requires { IsStorable coefficients.now }
        ensures { result ≡ coefficients.now }
    {
        PolyView { coefficients }
    }

    // The coefficients from the constant one up, of which the last is not 0.
    pub(crate) fn coefficients(&self) -> &[i64]
        ensures list { result.now ≡ self.now }
        ensures storable { IsStorable self.now }
    {
        self.coefficients
    }

    /// The coefficient of `q^k`, which is 0 above the degree.
    pub fn coefficient(&self, k: u32) -> i64
        ensures { result ≡ coefficient self.now k }
    {
        match self.coefficients.get(k as usize) {
            Some(c) => *c,
            None => 0,
        }
    }

    /// The greatest `k` such that the coefficient of `q^k` is not 0, and `None` for the zero
    /// polynomial.
    pub fn degree(&self) -> Option<u32>
        ensures zero { IsNone result ↔ (self.now ≡ []) }
        ensures degree { IfSome result (IsDegree self.now) }
        ensures normal { IsPolynomial self.now }
        ensures small { HasSmallCoefficients self.now }
    {
        let len = self.coefficients.len();
        if len == 0 {
            None
        } else {
            Some((len - 1) as u32)
        }
    }

    /// Appends the text: the terms by rising degree, as in `1+2q+q^2`, `-1+q` and `-2q^3`, and `0`
    /// for the zero polynomial. Out of memory, only its first bytes may be there; a vector with room
    /// for it takes it whole.
    pub fn put_text(&self, out: &mut Vec<u8>) -> Result<(), NoMemory>
        ensures text { Puts result (polynomial_text self.now) out.old.items out.new.items }
        ensures full { OnErr result (vec_capacity out.old < vec_len out.old + length (polynomial_text self.now)) }
        ensures capacity { vec_capacity out.old ≤ vec_capacity out.new }
    {
        put_polynomial(out, self.coefficients)
    }
}
