//! Inverse rows, and how one is made: from w down, each polynomial from those behind it.
ghost use Rattle.std.specs.Prelude.{◌≡◌, ◌≢◌, ℕ, ◌<◌, ◌≤◌, ℤ, pos, ◌≤ℤ◌, ◌∷◌, ◌↔◌, [], length, Contains, vec_capacity};
ghost use Rattle.std.specs.Prelude.{Err, IfOk, IfErr, OnOk};
ghost use Rattle.cox_base.specs.IntegerMatrix.{integer_matrix};
ghost use Rattle.cox_base.specs.Bruhat.{IsBelow};
ghost use Rattle.cox_poly.specs.Polynomial.{coefficient, IsPolynomial, SameCoefficients};
ghost use Rattle.cox_poly.specs.Limit.{AllWithin, IsFirstAbove};
ghost use Rattle.cox_context.specs.Closed.{Elements};
ghost use Rattle.cox_context.specs.Numbers.{word_at};
ghost use Rattle.cox_inverse.specs.InverseRow.{IsInverse};
ghost use Rattle.cox_inverse.specs.NumberedInverses.{AreInverses, IsInverseRowDown, number_before};
ghost use Rattle.cox_inverse.specs.InverseFaults.{IsInverseFault, IsInverseWithin, AreWithinLimits};
ghost use Rattle.cox_inverse.specs.Intervals.{IsInterval, AreRowsThere, ArePairsSmall, IsSumFault};
ghost use Rattle.cox_inverse.specs.declared.fault.InverseFault.TheVariants.{NoMemory};

use crate::fault::{InverseFault, MAX_COEFFICIENT};
use crate::interval::Interval;
use crate::large::first_large;
use crate::sums::sum_up;
use cox_context::Context;
use cox_poly::{Acc, Poly, PolyFault};
use cox_row::LowerRows;
use std::alloc::Global;
use std::marker::Model;

/// The polynomials Q(x,w) for the members x of a context with y <= x <= w.
///
/// Contracts see the numbers of these members, rising, and the polynomials, from the last member on.
#[derive(Drop)]
pub struct InverseRow {
    members: Vec<u32>,
    /// That of w comes first.
    polynomials: Vec<Poly>,
}

impl Model for InverseRow {
    ghost use Rattle.cox_inverse.specs.NumberedInverses.{NumberedInverses, AreAligned};

    ghost Value = { NumberedInverses };

    ghost view = { λ r. record { numbers = r.members.items; polynomials = r.polynomials.items } };

    ghost invariant = { λ r. AreAligned (record { numbers = r.members.items; polynomials = r.polynomials.items }) };
}

impl InverseRow {
    /// Q(x,w), for the number of a member x with y <= x <= w.
    pub fn polynomial(&self, x: u32) -> &Poly
        requires { Contains self.now.numbers x }
        ensures { (e : Elements) → (y w : ℕ) (limit : ℤ) → IsInverseRowDown e y w limit self.now
            → IsInverse (integer_matrix e.matrix) (word_at e.members x) (word_at e.members w) (coefficient result.now) }
    {
        match self.members.binary_search(&x) {
            Ok(k) => &self.polynomials[self.members.len() - 1 - k],
            Err(_) => unreachable!(),
        }
    }
}

/// The inverse row of w from w down to y, for the members y and w with these numbers, from the rows of all members between them.
///
/// `Coefficient` where a P(x,z) with y <= x <= z <= w has a coefficient above [`MAX_COEFFICIENT`] in absolute value: that of the first such
/// z, of the first such x for it, and the first one of P(x,z). Else `Inverse` where a Q(x,w) with y <= x <= w has a coefficient above
/// `limit`: that of the last such x, and the first one of Q(x,w).
pub fn inverse_row<L: LowerRows>(
    alloc: Global,
    ctx: &Context,
    y: u32,
    w: u32,
    lower: &L,
    limit: i64,
) -> Result<InverseRow, InverseFault>
    requires y { y < length ctx.now.members }
    requires w { w < length ctx.now.members }
    requires below { IsBelow (integer_matrix ctx.now.matrix) (word_at ctx.now.members y) (word_at ctx.now.members w) }
    requires lower { L.elements lower.now ≡ ctx.now }
    requires rows { (z : ℕ) → z < length ctx.now.members
        → IsBelow (integer_matrix ctx.now.matrix) (word_at ctx.now.members y) (word_at ctx.now.members z)
        → IsBelow (integer_matrix ctx.now.matrix) (word_at ctx.now.members z) (word_at ctx.now.members w) → L.holds lower.now z }
    requires least { pos 0 ≤ℤ limit }
    requires most { limit ≤ℤ MAX_COEFFICIENT }
    ensures row { IfOk result (IsInverseRowDown ctx.now y w limit) }
    ensures within { let A = integer_matrix ctx.now.matrix in
        OnOk result (AreWithinLimits A limit (word_at ctx.now.members y) (word_at ctx.now.members w)) }
    ensures fault { IfErr result (IsInverseFault ctx.now y w limit) }
{
    let _len = ctx.len();
    let interval = Interval::between(alloc, ctx, y, w)?;
    if let Some(fault) = first_large(ctx, &interval, lower) {
        return Err(fault);
    }
    let polynomials = all_polynomials(alloc, ctx, &interval, lower, limit)?;
    let Interval { members, .. } = interval;
    Ok(InverseRow {
        members,
        polynomials,
    })
}

/// The polynomials Q(x,w) for all members x of an interval, from its top w down.
fn all_polynomials<L: LowerRows>(
    alloc: Global,
    ctx: &Context,
    interval: &Interval,
    lower: &L,
    limit: i64,
) -> Result<Vec<Poly>, InverseFault>
    requires interval { IsInterval ctx.now interval.now }
    requires below { let A = integer_matrix ctx.now.matrix in
        IsBelow A (word_at ctx.now.members interval.now.bottom) (word_at ctx.now.members interval.now.top) }
    requires lower { L.elements lower.now ≡ ctx.now }
    requires rows { AreRowsThere (L.holds lower.now) interval.now }
    requires small { ArePairsSmall ctx.now interval.now.bottom interval.now.top }
    requires least { pos 0 ≤ℤ limit }
    requires most { limit ≤ℤ MAX_COEFFICIENT }
    ensures inverses { IfOk result (λ v. AreInverses ctx.now interval.now.top limit interval.now.members.items v.items) }
    ensures all { IfOk result (λ v. length v.items ≡ length interval.now.members.items) }
    ensures fault { IfErr result (IsInverseFault ctx.now interval.now.bottom interval.now.top limit) }
{
    let mut polynomials = Vec::with_capacity(alloc, interval.members.len())?;
    put_polynomials(alloc, ctx, interval, lower, limit, &mut polynomials)?;
    Ok(polynomials)
}

/// Puts these polynomials into a list that has room for them. Memory runs out only where the next one has no coefficient above the limit.
fn put_polynomials<L: LowerRows>(
    alloc: Global,
    ctx: &Context,
    interval: &Interval,
    lower: &L,
    limit: i64,
    polynomials: &mut Vec<Poly>,
) -> Result<(), InverseFault>
    requires interval { IsInterval ctx.now interval.now }
    requires below { let A = integer_matrix ctx.now.matrix in
        IsBelow A (word_at ctx.now.members interval.now.bottom) (word_at ctx.now.members interval.now.top) }
    requires lower { L.elements lower.now ≡ ctx.now }
    requires rows { AreRowsThere (L.holds lower.now) interval.now }
    requires small { ArePairsSmall ctx.now interval.now.bottom interval.now.top }
    requires least { pos 0 ≤ℤ limit }
    requires most { limit ≤ℤ MAX_COEFFICIENT }
    requires none { polynomials.old.items ≡ [] }
    requires room { length interval.now.members.items ≤ vec_capacity polynomials.old }
    ensures inverses { OnOk result (AreInverses ctx.now interval.now.top limit interval.now.members.items polynomials.new.items) }
    ensures all { OnOk result (length polynomials.new.items ≡ length interval.now.members.items) }
    ensures fault { IfErr result (IsInverseFault ctx.now interval.now.bottom interval.now.top limit) }
    ensures memory { let A = integer_matrix ctx.now.matrix in
        let x = number_before interval.now.members.items (length polynomials.new.items) in
        IfErr result (λ e. e ≡ NoMemory → IsInverseWithin A limit (word_at ctx.now.members x) (word_at ctx.now.members interval.now.top)) }
{
    let _len = ctx.len();
    let one = match top_polynomial(alloc, interval.top, limit) {
        Ok(one) => one,
        Err(fault) => return Err(fault),
    };
    polynomials.push_reserved(one);
    let mut sums = Acc::new();
    for done in 1..interval.members.len() {
        sum_up(ctx, interval, polynomials.as_slice(), lower, &mut sums);
        let x = interval.members[interval.members.len() - 1 - done];
        match closed(alloc, x, &sums, limit) {
            Ok(polynomial) => polynomials.push_reserved(polynomial),
            Err(fault) => return Err(fault),
        }
    }
    Ok(())
}

/// Q(w,w) = 1, if the limit admits it.
fn top_polynomial(alloc: Global, w: u32, limit: i64) -> Result<Poly, InverseFault>
    requires { pos 0 ≤ℤ limit }
    ensures one { IfOk result (λ p. p ≡ pos 1 ∷ []) }
    ensures within { OnOk result (AllWithin limit (pos 1 ∷ [])) }
    ensures refused { limit ≡ pos 0 → result ≡ Err (InverseFault.Inverse w 0 (pos 1)) }
    ensures fault { IfErr result (IsSumFault w limit (pos 1 ∷ [])) }
{
    if limit == 0 {
        return Err(InverseFault::Inverse {
            x: w,
            degree: 0,
            value: 1,
        });
    }
    let one = Poly::one(alloc)?;
    Ok(one)
}

/// The polynomial with these sums, which are those for a member x. Where a coefficient is above the limit the fault tells the first one.
fn closed(alloc: Global, x: u32, sums: &Acc, limit: i64) -> Result<Poly, InverseFault>
    ensures same { IfOk result (λ p. SameCoefficients p sums.now) }
    ensures trimmed { IfOk result IsPolynomial }
    ensures within { OnOk result (AllWithin limit sums.now) }
    ensures too_big { (d : ℕ) (v : ℤ) → (result ≡ Err (InverseFault.Inverse x d v)) ↔ IsFirstAbove limit sums.now d v }
    ensures fault { IfErr result (IsSumFault x limit sums.now) }
{
    match sums.close(alloc, limit) {
        Ok(polynomial) => Ok(polynomial),
        Err(PolyFault::TooBig { degree, value }) => Err(InverseFault::Inverse { x, degree, value }),
        Err(PolyFault::NoMemory) => Err(InverseFault::NoMemory),
    }
}
