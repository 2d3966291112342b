//! Sums of multiples of polynomials, in 128 bits a coefficient.
ghost use Rattle.std.specs.Prelude.{◌≡◌, ◌≢◌, ◌↔◌, ℕ, ℤ, ◌+◌, ◌-◌, ◌^◌, ◌<◌, ◌≤◌, pos, ◌*ℤ◌, ◌<ℤ◌, ◌≤ℤ◌, unsigned_abs, length, false};
ghost use Rattle.std.specs.Prelude.{IsTrue, IsOk, OnOk, IfOk, IfErr, Err};
ghost use Rattle.cox_poly.specs.Polynomial.{coefficient, IsPolynomial, SameCoefficients, IsTrimmedLength, coefficient_after};
ghost use Rattle.cox_poly.specs.Fingerprint.{mixed, fingerprint};
ghost use Rattle.cox_poly.specs.Limit.{IsWithin, AllWithin, IsFirstAbove};

use crate::NoMemory;
use crate::poly_fault::PolyFault;
use crate::poly_view::PolyView;
use crate::polynomial::Poly;
use std::alloc::Global;
use std::marker::Model;

/// How many sums there are: one for each degree below this.
pub const DEGREES: usize = 256;

/// A sum of polynomials, of degrees below [`DEGREES`], in 128 bits a coefficient. It takes no memory.
///
/// Contracts see the list of its coefficients, from the constant one up; zeros may end this list.
#[derive(Drop)]
pub struct Acc {
    sums: [i128; DEGREES],
    // no sum from here on is other than 0
    used: usize,
}

impl Model for Acc {
    ghost use Rattle.std.specs.Prelude.{List, ℤ, ◌≤◌};
    ghost use Rattle.cox_poly.specs.Polynomial.{HasDegreeBelow};
    ghost use Rattle.cox_poly.specs.declared.accumulator.TheConstants.{DEGREES};

    ghost Value = { List ℤ };

    ghost view = { λ a. a.sums };

    ghost invariant = { λ a. (a.used ≤ DEGREES) × HasDegreeBelow a.sums a.used };
}

// No sum has begun.
fn zeros() -> [i128; DEGREES]
    ensures { (k : ℕ) → coefficient result k ≡ pos 0 }
{
    [0; DEGREES]
}

// The product, which has at most 127 bits.
fn product(a: i64, b: i64) -> i128
    ensures { result ≡ a *ℤ b }
{
    i128::from(a) * i128::from(b)
}

// The same number in fewer bits.
fn narrowed(value: i128) -> i64
    requires { unsigned_abs value < 2 ^ 63 }
    ensures { result ≡ value }
{
    value as i64
}

// Whether the absolute value is above the limit.
fn exceeds(value: i128, limit: i64) -> bool
    requires { pos 0 ≤ℤ limit }
    ensures above { IsTrue result → limit <ℤ pos (unsigned_abs value) }
    ensures within { result ≡ false → IsWithin limit value }
{
    value.unsigned_abs() > limit as u128
}

// Adds factor times q^shift times the polynomial with these coefficients to the sums.
fn add_into(sums: &mut [i128], coefficients: &[i64], factor: i64, shift: usize)
    requires degrees { length coefficients.now + shift ≤ length sums.old }
    requires room { (k : ℕ) →
        unsigned_abs (coefficient_after sums.old coefficients.now factor shift k) ≤ 2 ^ 126 }
    ensures { (k : ℕ) →
        coefficient sums.new k ≡ coefficient_after sums.old coefficients.now factor shift k }
{
    for (i, c) in coefficients.iter().enumerate() {
        sums[shift + i] += product(factor, *c);
    }
}

// How many sums there are up to the last one that is not 0, or the first place of a sum whose
// absolute value is above the limit.
fn measure(sums: &[i128], limit: i64) -> Result<usize, usize>
    requires { pos 0 ≤ℤ limit }
    ensures trimmed { IfOk result (IsTrimmedLength sums.now) }
    ensures within { OnOk result (AllWithin limit sums.now) }
    ensures place { IfErr result (λ k. k < length sums.now) }
    ensures above { IfErr result (λ k. IsFirstAbove limit sums.now k (coefficient sums.now k)) }
{
    let mut len = 0;
    for (k, sum) in sums.iter().enumerate() {
        if exceeds(*sum, limit) {
            return Err(k);
        }
        if *sum != 0 {
            len = k + 1;
        }
    }
    Ok(len)
}

// The same list in fewer bits.
fn narrowed_list(alloc: Global, sums: &[i128]) -> Result<Vec<i64>, NoMemory>
    requires { (k : ℕ) → unsigned_abs (coefficient sums.now k) < 2 ^ 63 }
    ensures items { IfOk result (λ v. v.items ≡ sums.now) }
    ensures empty { length sums.now ≡ 0 → IsOk result }
{
    let mut items = Vec::with_capacity(alloc, sums.len())?;
    for sum in sums {
        items.push(narrowed(*sum))?;
    }
    Ok(items)
}

// Puts 0 for each sum.
fn erase(sums: &mut [i128])
    ensures { (k : ℕ) → coefficient sums.new k ≡ pos 0 }
{
    for sum in sums.iter_mut() {
        *sum = 0;
    }
}

// Whether the sums are the coefficients of the polynomial, as far as they go. The last ones, which differ most, are looked at first.
fn agrees(sums: &[i128], p: &PolyView<'_>) -> bool
    requires { length sums.now ≤ DEGREES }
    ensures { IsTrue result ↔ ((k : ℕ) → k < length sums.now → coefficient p.now k ≡ coefficient sums.now k) }
{
    let mut k = sums.len();
    while k > 0 {
        k -= 1;
        if i128::from(p.coefficient(k as u32)) != sums[k] {
            return false;
        }
    }
    true
}

// The fingerprint of q p + c, from that of p.
fn mixed(c: i128, h: u64) -> u64
    ensures { result ≡ mixed c h }
{
    let low = (c.unsigned_abs() % (1 << 64)) as u64;
    h.wrapping_mul(11_400_714_819_323_198_485).wrapping_add(low)
}

// The fingerprint of these sums.
fn fingerprint(sums: &[i128]) -> u64
    ensures { result ≡ fingerprint sums.now }
{
    let mut k = sums.len();
    let mut h = 0;
    while k > 0 {
        k -= 1;
        h = mixed(sums[k], h);
    }
    h
}

impl Acc {
    /// The empty sum, 0.
    pub fn new() -> Acc
        ensures { (k : ℕ) → coefficient result k ≡ pos 0 }
    {
        Acc {
            sums: zeros(),
            used: 0,
        }
    }

    /// Makes the sum 0 again.
    pub fn clear(&mut self)
        ensures { (k : ℕ) → coefficient self.new k ≡ pos 0 }
    {
        erase(&mut self.sums[..self.used]);
        self.used = 0;
    }

    /// Whether the sum is this polynomial.
    ///
    /// `1 + q` and `q` add up to `1 + 2q`, and not to `1 + 2q + q^2`.
    pub fn is(&self, p: &PolyView<'_>) -> bool
        ensures { IsTrue result ↔ SameCoefficients p.now self.now }
    {
        p.coefficients().len() <= self.used && agrees(&self.sums[..self.used], p)
    }

    /// A number that is the same for equal sums.
    pub fn fingerprint(&self) -> u64
        ensures { result ≡ fingerprint self.now }
    {
        fingerprint(&self.sums[..self.used])
    }

    /// Adds `factor * q^shift * p`. Each term of `q^shift * p` has a degree below [`DEGREES`], and no
    /// sum may come above `2^126` in absolute value.
    ///
    /// Three times `1 + q`, shifted by 2, makes 0 into `3q^2 + 3q^3`.
    pub fn add_scaled(&mut self, p: &PolyView<'_>, factor: i64, shift: u32)
        requires degrees { (k : ℕ) → DEGREES ≤ k + shift → coefficient p.now k ≡ pos 0 }
        requires room { (k : ℕ) →
            unsigned_abs (coefficient_after self.old p.now factor shift k) ≤ 2 ^ 126 }
        ensures sum { (k : ℕ) →
            coefficient self.new k ≡ coefficient_after self.old p.now factor shift k }
    {
        let coefficients = p.coefficients();
        if coefficients.is_empty() {
            return;
        }
        add_into(&mut self.sums, coefficients, factor, shift as usize);
        self.used = self.used.max(coefficients.len() + shift as usize);
    }

    /// The coefficients, from the constant one up; zeros may end this list.
    pub fn sums(&self) -> &[i128]
        ensures sums { result.now ≡ self.now }
        ensures size { length self.now ≡ DEGREES }
    {
        &self.sums
    }

    /// The sum as a polynomial, if each coefficient is at most the limit in absolute value.
    ///
    /// `TooBig` comes exactly where a coefficient is above the limit in absolute value, with the
    /// least degree of such a coefficient and its value: under limit 2 the sum `3q^2 + 3q^3` is
    /// too big at degree 2, by 3. Memory is asked for only after that, and `NoMemory` comes where
    /// there is none for the polynomial. The sum 0 takes none.
    pub fn close(&self, alloc: Global, limit: i64) -> Result<Poly, PolyFault>
        ensures sum { IfOk result (λ p. SameCoefficients p self.now) }
        ensures normal { IfOk result IsPolynomial }
        ensures within { OnOk result (AllWithin limit self.now) }
        ensures too_big { (d : ℕ) (v : ℤ) →
            (result ≡ Err (PolyFault.TooBig d v)) ↔ IsFirstAbove limit self.now d v }
        ensures zero { ((k : ℕ) → coefficient self.now k ≡ pos 0) → pos 0 ≤ℤ limit → IsOk result }
    {
        if limit < 0 {
            // not even 0 is within it
            return Err(PolyFault::TooBig {
                degree: 0,
                value: self.sums[0],
            });
        }
        let sums = &self.sums[..self.used];
        match measure(sums, limit) {
            Err(degree) => Err(PolyFault::TooBig {
                degree: degree as u32,
                value: sums[degree],
            }),
            Ok(len) => {
                let coefficients = narrowed_list(alloc, &sums[..len])?;
                Ok(Poly::from_trimmed(coefficients))
            }
        }
    }
}

impl Default for Acc {
    ghost is_default = { λ a. (k : ℕ) → coefficient a k ≡ pos 0 };

    fn default() -> Acc {
        Acc::new()
    }
}
