//! Polynomials in `q` with coefficients of 64 bits.
ghost use Rattle.std.specs.Prelude.{◌≡◌, ◌↔◌, ◌+◌, ◌-◌, ◌^◌, ◌<◌, [], ◌∷◌, pos, ℕ, ℤ, List, length, Ok, Err, IsOk, IfOk, IfSome};
ghost use Rattle.std.specs.Prelude.{◌≤◌, vec_len, vec_capacity, OnErr, IsNone};
ghost use Rattle.cox_poly.specs.Polynomial.{coefficient, IsPolynomial, IsStorable, SameCoefficients, HasSmallCoefficients, IsDegree};
ghost use Rattle.cox_poly.specs.Polynomial.{IsTrimmedLength};
ghost use Rattle.cox_poly.specs.Puts.{Puts};
ghost use Rattle.cox_poly.specs.PolynomialText.{polynomial_text};

use crate::NoMemory;
use crate::poly_view::PolyView;
use std::alloc::{AllocError, Global};
use std::marker::Model;

/// A polynomial in `q` with coefficients of 64 bits, of a degree below `2^32`.
///
/// Contracts see the list of its coefficients, from the constant one up, without trailing zeros:
/// `1 + 2q` is the list of 1 and 2, and the zero polynomial is the empty list.
#[derive(Debug, Drop)]
pub struct Poly {
    coefficients: Vec<i64>,
}

impl Model for Poly {
    ghost use Rattle.std.specs.Prelude.{List, ℤ};
    ghost use Rattle.cox_poly.specs.Polynomial.{IsStorable};

    ghost Value = { List ℤ };

    ghost view = { λ p. p.coefficients.items };

    ghost invariant = { λ p. IsStorable p.coefficients.items };
}

// The greatest degree is one below this, so that a degree has 32 bits.
const MAX_LEN: usize = 1 << 32;

// How long the list is without its trailing zeros.
fn trimmed_len(list: &[i64]) -> usize
    ensures trimmed { IsTrimmedLength list.now result }
    ensures small { HasSmallCoefficients list.now }
{
    let mut len = 0;
    for (k, c) in list.iter().enumerate() {
        if *c != 0 {
            len = k + 1;
        }
    }
    len
}

// The same list in memory of its own; the empty one takes none.
fn copied(alloc: Global, list: &[i64]) -> Result<Vec<i64>, NoMemory>
    ensures items { IfOk result (λ v. v.items ≡ list.now) }
    ensures empty { length list.now ≡ 0 → IsOk result }
{
    let mut items = Vec::with_capacity(alloc, list.len())?;
    items.extend_from_slice(list)?;
    Ok(items)
}

impl Poly {
    /// The polynomial with these coefficients, from the constant one up; zeros at the end count
    /// for nothing.
    ///
    /// `NoMemory` comes where there is no memory, and for a degree of `2^32` or more. The zero
    /// polynomial takes none.
    pub fn of(alloc: Global, list: &[i64]) -> Result<Poly, NoMemory>
        ensures same { IfOk result (λ p. SameCoefficients p list.now) }
        ensures normal { IfOk result IsPolynomial }
        ensures zero { ((k : ℕ) → coefficient list.now k ≡ pos 0) → IsOk result }
    {
        let len = trimmed_len(list);
        if len > MAX_LEN {
            return Err(AllocError);
        }
        let coefficients = copied(alloc, &list[..len])?;
        Ok(Poly { coefficients })
    }

    /// The zero polynomial. It takes no memory, so it is always made.
    pub fn zero(alloc: Global) -> Result<Poly, NoMemory>
        ensures zero { IfOk result (λ p. p ≡ []) }
        ensures made { IsOk result }
    {
        Ok(Poly {
            coefficients: Vec::new(alloc),
        })
    }

    /// The constant polynomial 1.
    pub fn one(alloc: Global) -> Result<Poly, NoMemory>
        ensures { IfOk result (λ p. p ≡ pos 1 ∷ []) }
    {
        let coefficients = Vec::from_slice(alloc, &[1])?;
        Ok(Poly { coefficients })
    }

    /// An equal polynomial with memory of its own: one allocation, and none for the zero polynomial.
    pub fn copy(&self) -> Result<Poly, NoMemory>
        ensures equal { IfOk result (λ p. p ≡ self.now) }
        ensures zero { self.now ≡ [] → IsOk result }
    {
        let coefficients = copied(*self.coefficients.allocator(), &self.coefficients)?;
        Ok(Poly { coefficients })
    }

    /// The polynomial as others see it: it takes no memory.
    pub fn view(&self) -> PolyView<'_>
        ensures { result ≡ self.now }
    {
        PolyView::of_trimmed(&self.coefficients)
    }

    /// The coefficient of `q^k`, which is 0 above the degree.
    pub fn coefficient(&self, k: u32) -> i64
        ensures { result ≡ coefficient self.now k }
    {
        self.view().coefficient(k)
    }

    /// The greatest `k` such that the coefficient of `q^k` is not 0, and `None` for the zero
    /// polynomial.
    pub fn degree(&self) -> Option<u32>
        ensures zero { IsNone result ↔ (self.now ≡ []) }
        ensures degree { IfSome result (IsDegree self.now) }
        ensures normal { IsPolynomial self.now }
        ensures small { HasSmallCoefficients self.now }
    {
        self.view().degree()
    }

    /// The polynomial with these coefficients, from the constant one up, of which the last is not 0. It takes no memory.
    pub fn from_trimmed(coefficients: Vec<i64>) -> Poly
        requires { IsStorable coefficients.items }
        ensures { result ≡ coefficients.items }
    {
        Poly { coefficients }
    }

    /// Appends the text: the terms by rising degree, as in `1+2q+q^2`, `-1+q` and `-2q^3`, and `0`
    /// for the zero polynomial. Out of memory, only its first bytes may be there; a vector with room
    /// for it takes it whole.
    pub fn put_text(&self, out: &mut Vec<u8>) -> Result<(), NoMemory>
        ensures text { Puts result (polynomial_text self.now) out.old.items out.new.items }
        ensures full { OnErr result (vec_capacity out.old < vec_len out.old + length (polynomial_text self.now)) }
        ensures capacity { vec_capacity out.old ≤ vec_capacity out.new }
    {
        self.view().put_text(out)
    }
}

impl PartialEq for Poly {
    ghost use Rattle.std.specs.Ordering.{int_eq};
    ghost use Rattle.std.specs.Cmp.{partial_equiv_from_equiv};
    ghost use Rattle.std.specs.Cmp.Lexicographic.{pointwise, lists_per};
    ghost use Rattle.std.proofs.lemmas.Cmp.{int_eq_equiv};

    ghost eq = { pointwise int_eq };

    ghost laws = { lists_per (partial_equiv_from_equiv int_eq_equiv) };

    fn eq(&self, other: &Poly) -> bool {
        self.coefficients == other.coefficients
    }
}

impl Eq for Poly {
    ghost use Rattle.std.specs.Cmp.Lexicographic.{lists_equiv};
    ghost use Rattle.std.proofs.lemmas.Cmp.{int_eq_equiv};

    ghost laws = { lists_equiv int_eq_equiv };
}
