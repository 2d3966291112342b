//! The check of a row: its conditions, one by one.
ghost use Rattle.std.specs.Prelude.{◌≡◌, ℕ, ◌<◌, ◌≤◌, ◌↔◌, IsTrue, length, All, IfOk, OnErr};
ghost use Rattle.cox_base.specs.IntegerMatrix.{integer_matrix};
ghost use Rattle.cox_base.specs.Members.{IsInInterval};
ghost use Rattle.cox_base.specs.SortedList.{IsListOf};
ghost use Rattle.cox_poly.specs.Coefficients.{one_polynomial};
ghost use Rattle.cox_poly.specs.Polynomial.{coefficient};
ghost use Rattle.cox_poly.specs.Products.{flip};
ghost use Rattle.cox_rpoly.specs.declared.TheConstants.{MAX_DIFFERENCE};
ghost use Rattle.cox_context.specs.Numbers.{word_at};
ghost use Rattle.cox_certtext.specs.declared.limits.TheConstants.{MAX_LISTED};
ghost use Rattle.cox_rowcheck.specs.ListedRows.{AreRow};
ghost use Rattle.cox_rowcheck.specs.CheckablePolynomials.{IsCheckable};
ghost use Rattle.cox_rowcheck.specs.Conditions.{MeetsBound, AreBounded, AreTurned};

use crate::sums::{SUM_TERMS, Sum, sums_of};
use cox_context::Context;
use cox_poly::Poly;
use std::alloc::{AllocError, Global};

/// Whether a polynomial is 1.
fn is_one(p: &Poly) -> bool
    ensures { IsTrue result ↔ ((k : ℕ) → coefficient p.now k ≡ one_polynomial k) }
{
    p.degree() == Some(0) && p.coefficient(0) == 1
}

/// Whether the polynomial of the i-th member is 1, if that is w, and else meets the bound on its degree.
fn meets_bound(ctx: &Context, w: u32, i: u32, p: &Poly) -> bool
    requires w { w < length ctx.now.members }
    requires i { i < length ctx.now.members }
    ensures { IsTrue result ↔ MeetsBound ctx.now.members w i p.now }
{
    if i == w {
        return is_one(p);
    }
    match p.degree() {
        Some(degree) => u64::from(ctx.length(i)) + 2 * u64::from(degree) < u64::from(ctx.length(w)),
        None => true,
    }
}

/// Whether p(w) is 1, and the others meet the bound on their degrees.
fn are_bounded(ctx: &Context, w: u32, polynomials: &[Poly]) -> bool
    requires w { w < length ctx.now.members }
    requires count { length polynomials.now ≡ length ctx.now.members }
    ensures { IsTrue result ↔ AreBounded ctx.now.members w polynomials.now }
{
    for i in 0..ctx.len() {
        if !meets_bound(ctx, w, i, &polynomials[i as usize]) {
            return false;
        }
    }
    true
}

/// Whether the sum is q^d p(1/q).
fn is_turned(p: &Poly, d: u32, sum: &Sum) -> bool
    requires { d < SUM_TERMS }
    ensures { IsTrue result ↔ ((k : ℕ) → flip d (coefficient p.now) k ≡ coefficient sum.now k) }
{
    for (k, &value) in sum.iter().enumerate() {
        let wanted = if k <= d as usize {
            p.coefficient(d - k as u32)
        } else {
            0
        };
        if value != i128::from(wanted) {
            return false;
        }
    }
    true
}

/// Whether the sum of each member x is q^d p(x)(1/q), with d = l(w) - l(x).
fn are_turned(ctx: &Context, w: u32, polynomials: &[Poly], sums: &[Sum]) -> bool
    requires w { w < length ctx.now.members }
    requires short { length (word_at ctx.now.members w) ≤ MAX_DIFFERENCE }
    requires polynomials { length polynomials.now ≡ length ctx.now.members }
    requires sums { length sums.now ≡ length ctx.now.members }
    ensures { IsTrue result ↔ AreTurned ctx.now.members w polynomials.now sums.now }
{
    let top = ctx.length(w);
    for i in 0..ctx.len() {
        let d = top.saturating_sub(ctx.length(i));
        if !is_turned(&polynomials[i as usize], d, &sums[i as usize]) {
            return false;
        }
    }
    true
}

/// Whether the polynomials are the row of w, where the members are the elements x <= w.
///
/// Where p(w) is not 1, or the degree of another polynomial is too high, the answer needs no memory.
///
/// In A 3 the row of `2132` has 1 + q at `e` and at `2`, and 1 at the other twelve elements. No row is made to find that.
pub fn is_row(
    alloc: Global,
    ctx: &Context,
    w: u32,
    polynomials: &[Poly],
) -> Result<bool, AllocError>
    requires w { w < length ctx.now.members }
    requires count { length polynomials.now ≡ length ctx.now.members }
    requires interval { IsListOf (IsInInterval (integer_matrix ctx.now.matrix) (word_at ctx.now.members w)) ctx.now.members }
    requires small { All IsCheckable polynomials.now }
    requires short { length (word_at ctx.now.members w) ≤ MAX_DIFFERENCE }
    requires few { length ctx.now.members ≤ MAX_LISTED }
    ensures row { IfOk result (λ answer. IsTrue answer
        ↔ AreRow (integer_matrix ctx.now.matrix) (word_at ctx.now.members w) ctx.now.members polynomials.now) }
    ensures bounded { OnErr result (AreBounded ctx.now.members w polynomials.now) }
{
    let _len = ctx.len();
    if !are_bounded(ctx, w, polynomials) {
        return Ok(false);
    }
    let sums = sums_of(alloc, ctx, polynomials)?;
    Ok(are_turned(ctx, w, polynomials, sums.as_slice()))
}
