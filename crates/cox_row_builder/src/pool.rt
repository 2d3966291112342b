//! Polynomials, each once, that are found again by their fingerprints.
ghost use Rattle.std.specs.Prelude.{◌≡◌, ℕ, ◌+◌, ◌^◌, ◌<◌, ◌≤◌, length, [], ◌∷◌, ◌++◌, OnOk, ◌≢◌, false, IfSome, IfNone};
ghost use Rattle.cox_poly.specs.Polynomial.{SameCoefficients, IsPolynomial};
ghost use Rattle.cox_row.specs.Polynomials.{polynomial_at};
ghost use Rattle.cox_row.specs.Rising.{number_at};
ghost use Rattle.cox_row_builder.specs.Prints.{print_of, ArePrints};

use cox_poly::{Acc, NoMemory, Poly, PolyList, PolyView};
use std::alloc::Global;
use std::marker::Model;

/// How many fingerprints are looked at together.
const BLOCK: usize = 16;

/// Polynomials, each with a fingerprint. A search looks at coefficients only where the fingerprints are the same.
///
/// Contracts see the list of the polynomials.
#[derive(Drop)]
pub(crate) struct Pool {
    polynomials: PolyList,
    prints: Vec<u32>,
}

impl Model for Pool {
    ghost use Rattle.std.specs.Prelude.{List, ℤ};
    ghost use Rattle.cox_row_builder.specs.Prints.{ArePrints};

    ghost Value = { List (List ℤ) };

    ghost view = { λ p. p.polynomials };

    ghost invariant = { λ p. ArePrints p.polynomials p.prints.items };
}

impl Pool {
    /// No polynomials.
    pub(crate) fn new(alloc: Global) -> Pool
        ensures { result ≡ [] }
    {
        Pool {
            polynomials: PolyList::new(alloc),
            prints: Vec::new(alloc),
        }
    }

    /// How many polynomials there are.
    pub(crate) fn len(&self) -> usize
        ensures { result ≡ length self.now }
    {
        self.polynomials.len()
    }

    /// The polynomial at the place k.
    pub(crate) fn at(&self, k: usize) -> PolyView<'_>
        requires { k < length self.now }
        ensures { result ≡ polynomial_at self.now k }
    {
        self.polynomials.at(k)
    }

    /// The place of the polynomial with these sums and their fingerprint, if it is there. The last ones are looked at first.
    pub(crate) fn find(&self, sums: &Acc, print: u32) -> Option<u32>
        requires few { length self.now < 2 ^ 32 }
        requires print { print ≡ print_of sums.now }
        ensures found { IfSome result (λ k. (k < length self.now) × SameCoefficients (polynomial_at self.now k) sums.now) }
        ensures trimmed { IfSome result (λ k. IsPolynomial (polynomial_at self.now k)) }
        ensures none { IfNone result ((j : ℕ) → j < length self.now → ¬ SameCoefficients (polynomial_at self.now j) sums.now) }
    {
        known_place(&self.polynomials, &self.prints, sums, print)
    }

    /// Puts the polynomial with these sums and their fingerprint behind the others.
    pub(crate) fn push(&mut self, polynomial: &Poly, sums: &Acc, print: u32) -> Result<(), NoMemory>
        requires sums { SameCoefficients polynomial.now sums.now }
        requires print { print ≡ print_of sums.now }
        ensures { OnOk result (self.new ≡ self.old ++ polynomial.now ∷ []) }
    {
        self.prints.truncate(self.polynomials.len());
        self.prints.push(print)?;
        self.polynomials.push(&polynomial.view())
    }

    /// The polynomials alone, with no memory that is not used.
    pub(crate) fn into_list(self) -> PolyList
        ensures { result ≡ self }
    {
        let mut polynomials = self.polynomials;
        polynomials.shrink_to_fit();
        polynomials
    }
}

/// The fingerprint of sums, as pools keep it.
pub(crate) fn print_of(sums: &Acc) -> u32
    ensures { result ≡ print_of sums.now }
{
    (sums.fingerprint() / (1 << 32)) as u32
}

/// The place of the polynomial with these sums and their fingerprint, if it is there. The last ones are looked at first.
fn known_place(polynomials: &PolyList, prints: &[u32], sums: &Acc, print: u32) -> Option<u32>
    requires prints { ArePrints polynomials.now prints.now }
    requires few { length polynomials.now < 2 ^ 32 }
    requires print { print ≡ print_of sums.now }
    ensures found { IfSome result (λ k. (k < length polynomials.now) × SameCoefficients (polynomial_at polynomials.now k) sums.now) }
    ensures trimmed { IfSome result (λ k. IsPolynomial (polynomial_at polynomials.now k)) }
    ensures none { IfNone result ((j : ℕ) → j < length polynomials.now → ¬ SameCoefficients (polynomial_at polynomials.now j) sums.now) }
{
    let mut end = polynomials.len();
    while end >= BLOCK {
        let start = end - BLOCK;
        if let Some(place) = place_in_block(polynomials, prints, start, sums, print) {
            return Some(place);
        }
        end = start;
    }
    place_among(polynomials, prints, 0, end, sums, print)
}

/// The place of the polynomial in a block, if it is there.
fn place_in_block(
    polynomials: &PolyList,
    prints: &[u32],
    start: usize,
    sums: &Acc,
    print: u32,
) -> Option<u32>
    requires prints { ArePrints polynomials.now prints.now }
    requires few { length polynomials.now < 2 ^ 32 }
    requires print { print ≡ print_of sums.now }
    requires within { start + BLOCK ≤ length polynomials.now }
    ensures found { IfSome result (λ k. (k < length polynomials.now) × SameCoefficients (polynomial_at polynomials.now k) sums.now) }
    ensures trimmed { IfSome result (λ k. IsPolynomial (polynomial_at polynomials.now k)) }
    ensures none { IfNone result ((j : ℕ) → start ≤ j → j < start + BLOCK → ¬ SameCoefficients (polynomial_at polynomials.now j) sums.now) }
{
    if !has(prints, start, print) {
        return None;
    }
    place_among(polynomials, prints, start, start + BLOCK, sums, print)
}

/// Whether a fingerprint is one of a block. It looks at each of them, with no branch.
fn has(prints: &[u32], start: usize, print: u32) -> bool
    requires { start + BLOCK ≤ length prints.now }
    ensures { result ≡ false → (j : ℕ) → start ≤ j → j < start + BLOCK → number_at prints.now j ≢ print }
{
    let mut found = false;
    for k in 0..BLOCK {
        found |= prints[start + k] == print;
    }
    found
}

/// The place of the polynomial among those from one place to another, if it is there. The last ones are looked at first.
fn place_among(
    polynomials: &PolyList,
    prints: &[u32],
    start: usize,
    end: usize,
    sums: &Acc,
    print: u32,
) -> Option<u32>
    requires prints { ArePrints polynomials.now prints.now }
    requires few { length polynomials.now < 2 ^ 32 }
    requires print { print ≡ print_of sums.now }
    requires order { start ≤ end }
    requires within { end ≤ length polynomials.now }
    ensures found { IfSome result (λ k. (k < length polynomials.now) × SameCoefficients (polynomial_at polynomials.now k) sums.now) }
    ensures trimmed { IfSome result (λ k. IsPolynomial (polynomial_at polynomials.now k)) }
    ensures none { IfNone result ((j : ℕ) → start ≤ j → j < end → ¬ SameCoefficients (polynomial_at polynomials.now j) sums.now) }
{
    let mut k = end;
    while k > start {
        k -= 1;
        if prints[k] == print {
            let known = polynomials.at(k);
            let _degree = known.degree();
            if sums.is(&known) {
                return Some(k as u32);
            }
        }
    }
    None
}
