//! Finite groups: with the longest element w0, Q(x,w) is P(w0 w, w0 x) (Kazhdan and Lusztig 1979, theorem 3.1).
ghost use Rattle.std.specs.Prelude.{◌≡◌, ℕ, ◌<◌, pos, ◌≤ℤ◌, length, false, IfSome, IfNone, IsTrue};
ghost use Rattle.cox_base.specs.IntegerMatrix.{integer_matrix};
ghost use Rattle.cox_base.specs.Bruhat.{IsBelow};
ghost use Rattle.cox_poly.specs.Polynomial.{coefficient};
ghost use Rattle.cox_poly.specs.Limit.{AllWithin};
ghost use Rattle.cox_context.specs.Numbers.{word_at};
ghost use Rattle.cox_row.specs.Polynomials.{polynomial_at};
ghost use Rattle.cox_row.specs.RowOf.{pool_of};
ghost use Rattle.cox_row.specs.Within.{IsRowWithin};
ghost use Rattle.cox_inverse.specs.InverseRow.{IsInverse};
ghost use Rattle.cox_inverse.specs.InverseFaults.{AreWithinLimits};
ghost use Rattle.cox_inverse.specs.WholeGroups.{IsLongestMember, IsReadable, IsTurned, HasLarge};

use crate::fault::MAX_COEFFICIENT;
use crate::large::large_degree;
use cox_context::Context;
use cox_poly::PolyView;
use cox_row::{LowerRows, Row, polynomial};

/// The longest element w0 of a finite group whose rows are all there, by its number: with it inverse polynomials are read off these rows.
#[derive(Clone, Copy, Drop)]
pub struct LongestElement {
    pub(crate) longest: u32,
}

impl LongestElement {
    /// The longest element; `None` exactly where the members are no whole finite group, a row is not there, or a coefficient of the rows is
    /// above the limit.
    ///
    /// Where the rows' own limit is not above it, no coefficient is looked at.
    pub fn of<L: LowerRows>(ctx: &Context, rows: &L, limit: i64) -> Option<LongestElement>
        requires rows { L.elements rows.now ≡ ctx.now }
        requires least { pos 0 ≤ℤ limit }
        ensures readable { IfSome result (IsReadable ctx.now (L.holds rows.now) limit) }
        ensures none { IfNone result ((w0 : LongestElement) → ¬ IsReadable ctx.now (L.holds rows.now) limit w0) }
    {
        let longest = longest_member(ctx)?;
        let greatest = rows.limit();
        for i in 0..ctx.len() {
            if !rows.has(i) {
                return None;
            }
            if !is_within(rows.row(i), greatest, limit) {
                return None;
            }
        }
        Some(LongestElement { longest })
    }

    /// Q(y,w), read off the row of w0 y, for the members y <= w. The limit is that with which w0 was found: no coefficient is above it.
    pub fn polynomial<'a, L: LowerRows>(
        self,
        ctx: &Context,
        rows: &'a L,
        y: u32,
        w: u32,
        limit: i64,
    ) -> PolyView<'a>
        requires rows { L.elements rows.now ≡ ctx.now }
        requires readable { IsReadable ctx.now (L.holds rows.now) limit self }
        requires most { limit ≤ℤ MAX_COEFFICIENT }
        requires y { y < length ctx.now.members }
        requires w { w < length ctx.now.members }
        requires below { IsBelow (integer_matrix ctx.now.matrix) (word_at ctx.now.members y) (word_at ctx.now.members w) }
        ensures value { let A = integer_matrix ctx.now.matrix in
            IsInverse A (word_at ctx.now.members y) (word_at ctx.now.members w) (coefficient result) }
        ensures within { AreWithinLimits (integer_matrix ctx.now.matrix) limit (word_at ctx.now.members y) (word_at ctx.now.members w) }
    {
        let _len = ctx.len();
        let _ = limit;
        let upper = turned(ctx, self.longest, y);
        let lower = turned(ctx, self.longest, w);
        match polynomial(ctx, rows.row(upper), upper, lower) {
            Some(p) => p,
            None => unreachable!(),
        }
    }
}

/// Whether no coefficient of a row is above the limit; none is above the greatest one.
fn is_within(row: &Row, greatest: i64, limit: i64) -> bool
    requires within { IsRowWithin greatest row.now }
    requires least { pos 0 ≤ℤ limit }
    ensures small { IsTrue result → (j : ℕ) → j < length (pool_of row.now) → AllWithin limit (polynomial_at (pool_of row.now) j) }
    ensures large { result ≡ false → HasLarge limit (pool_of row.now) }
{
    if greatest <= limit {
        return true;
    }
    for k in 0..row.pool().len() {
        if large_degree(&row.pool().at(k), limit).is_some() {
            return false;
        }
    }
    true
}

/// The number of w0 x.
fn turned(ctx: &Context, longest: u32, x: u32) -> u32
    requires longest { IsLongestMember ctx.now longest }
    requires x { x < length ctx.now.members }
    ensures { IsTurned ctx.now longest x result }
{
    let _len = ctx.len();
    let word = ctx.word(x);
    let mut at = longest;
    for &s in word.as_slice() {
        at = match ctx.right(s, at) {
            Some(next) => next,
            None => unreachable!(),
        };
    }
    at
}

/// The number of the longest element; `None` exactly where the members are no whole finite group. It is the last one, if each letter is a
/// right descent of that.
fn longest_member(ctx: &Context) -> Option<u32>
    ensures some { IfSome result (IsLongestMember ctx.now) }
    ensures none { IfNone result ((i : ℕ) → ¬ IsLongestMember ctx.now i) }
{
    let _len = ctx.len();
    let last = ctx.len() - 1;
    let descents = ctx.right_descent_set(last);
    for r in 0..ctx.matrix().rank() {
        if (descents >> r) & 1 == 0 {
            return None;
        }
    }
    Some(last)
}
