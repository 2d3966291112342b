//! The sums that the check of a row compares: for each member x the sum of R(x,y) p(y) over the members y.
ghost use Rattle.std.specs.Prelude.{◌≡◌, ℕ, ◌+◌, ◌^◌, ◌<◌, ◌≤◌, ◌*ℤ◌, pos, length, unsigned_abs, All, IfOk};
ghost use Rattle.cox_base.specs.IntegerMatrix.{integer_matrix};
ghost use Rattle.cox_poly.specs.Coefficients.{plus};
ghost use Rattle.cox_poly.specs.Polynomial.{coefficient, coefficient_after, HasDegreeBelow, HasSmallCoefficients};
ghost use Rattle.cox_poly.specs.Products.{product};
ghost use Rattle.cox_rpoly.specs.declared.TheConstants.{MAX_DIFFERENCE};
ghost use Rattle.cox_rpoly.specs.Terms.{numbered};
ghost use Rattle.cox_context.specs.Numbers.{word_at};
ghost use Rattle.cox_certtext.specs.declared.limits.TheConstants.{MAX_LISTED};
ghost use Rattle.cox_rowcheck.specs.CheckablePolynomials.{IsCheckable};
ghost use Rattle.cox_rowcheck.specs.Columns.{IsColumn};
ghost use Rattle.cox_rowcheck.specs.MemberSums.{HasAdded, AreZeros, AreSums};

use crate::column::{Column, first};
use crate::order::words_in_order;
use crate::prefixes::{climb, common};
use cox_base::{Word, copy_word};
use cox_context::Context;
use cox_poly::Poly;
use cox_rpoly::terms::TERMS;
use std::alloc::{AllocError, Global};

/// How many coefficients a sum has: R(x,y) and p(y) have at most half of them each.
pub(crate) const SUM_TERMS: usize = 2 * TERMS;

/// A sum of products R(x,y) p(y), by its coefficients from the constant one up. With 4,096 members the sums take 5 MB.
pub(crate) type Sum = [i128; SUM_TERMS];

/// The product, which has at most 127 bits.
fn wide_product(a: i64, b: i64) -> i128
    ensures { result ≡ a *ℤ b }
{
    i128::from(a) * i128::from(b)
}

/// Adds factor q^shift r to a sum.
fn add_multiple(sum: &mut Sum, r: &[i64], factor: i64, shift: usize)
    requires degrees { length r.now + shift ≤ SUM_TERMS }
    requires room { (k : ℕ) → unsigned_abs (coefficient_after sum.old r.now factor shift k) ≤ 2 ^ 126 }
    ensures { (k : ℕ) → coefficient sum.new k ≡ coefficient_after sum.old r.now factor shift k }
{
    for (k, c) in r.iter().enumerate() {
        sum[shift + k] += wide_product(factor, *c);
    }
}

/// How many coefficients a polynomial has.
fn size(p: &Poly) -> u32
    requires small { IsCheckable p.now }
    ensures low { HasDegreeBelow p.now result }
    ensures few { result ≤ TERMS }
{
    match p.degree() {
        Some(degree) => degree + 1,
        None => 0,
    }
}

/// Adds r p to a sum.
fn add_product(sum: &mut Sum, r: &[i64], p: &Poly)
    requires low { HasDegreeBelow r.now TERMS }
    requires narrow { HasSmallCoefficients r.now }
    requires small { IsCheckable p.now }
    requires room { (k : ℕ) → unsigned_abs (coefficient sum.old k) ≤ 2 ^ 125 }
    ensures sum { (k : ℕ) → coefficient sum.new k ≡ plus (coefficient sum.old) (product (coefficient r.now) (coefficient p.now)) k }
    ensures grown { (k : ℕ) → unsigned_abs (coefficient sum.new k) ≤ unsigned_abs (coefficient sum.old k) + 2 ^ 100 }
{
    let r = &r[..TERMS.min(r.len())];
    for k in 0..size(p) {
        add_multiple(sum, r, p.coefficient(k), k as usize);
    }
}

/// Adds R(x,y) p to the sum of each member x, by the column of y.
fn add_column(ctx: &Context, sums: &mut Vec<Sum>, column: &Column, p: &Poly)
    requires sums { length sums.old.items ≡ length ctx.now.members }
    requires number { column.now.number < length ctx.now.members }
    requires short { length (word_at ctx.now.members column.now.number) ≤ MAX_DIFFERENCE }
    requires column { IsColumn (integer_matrix ctx.now.matrix) ctx.now.members
        (word_at ctx.now.members column.now.number) column.now.entries }
    requires small { IsCheckable p.now }
    requires room { (i k : ℕ) → unsigned_abs (coefficient (numbered sums.old.items i) k) ≤ 2 ^ 124 }
    ensures size { length sums.new.items ≡ length sums.old.items }
    ensures sum { (i : ℕ) → i < length sums.old.items
        → HasAdded (numbered sums.old.items i) (numbered sums.new.items i) (numbered column.now.entries i) p.now }
{
    let _len = ctx.len();
    for i in 0..column.entries.len() {
        add_product(&mut sums[i], column.entries.at(i), p);
    }
}

/// The sum 0.
fn no_sum() -> Sum
    ensures { (k : ℕ) → coefficient result k ≡ pos 0 }
{
    [0; SUM_TERMS]
}

/// So many sums of 0.
fn no_sums(alloc: Global, n: u32) -> Result<Vec<Sum>, AllocError>
    ensures { IfOk result (λ sums. AreZeros n sums.items) }
{
    let mut sums = Vec::with_capacity(alloc, n as usize)?;
    for _i in 0..n {
        sums.push(no_sum())?;
    }
    Ok(sums)
}

/// For each member x the sum of R(x,y) p(y) over the members y.
///
/// The y are taken in lexicographic order, and the columns of the prefixes of the last one are kept: so each column is made once.
pub(crate) fn sums_of(
    alloc: Global,
    ctx: &Context,
    polynomials: &[Poly],
) -> Result<Vec<Sum>, AllocError>
    requires count { length polynomials.now ≡ length ctx.now.members }
    requires few { length ctx.now.members ≤ MAX_LISTED }
    requires small { All IsCheckable polynomials.now }
    requires short { (i : ℕ) → i < length ctx.now.members → length (word_at ctx.now.members i) ≤ MAX_DIFFERENCE }
    ensures { IfOk result (λ sums. AreSums (integer_matrix ctx.now.matrix) ctx.now.members polynomials.now ctx.now.members sums.items) }
{
    let _len = ctx.len();
    let words = words_in_order(alloc, ctx)?;
    let mut sums = no_sums(alloc, ctx.len())?;
    let mut stack = Vec::new(alloc);
    stack.push(first(alloc, ctx)?)?;
    let mut last = Word::new();
    for word in words.as_slice() {
        stack.truncate(common(last.as_slice(), word.as_slice()) + 1);
        climb(alloc, ctx, &mut stack, word)?;
        let column = &stack[word.len()];
        add_column(ctx, &mut sums, column, &polynomials[column.number as usize]);
        last = copy_word(word);
    }
    Ok(sums)
}
