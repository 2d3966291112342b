//! Whether a polynomial that goes into an inverse row has a coefficient above the limit.
ghost use Rattle.std.specs.Prelude.{◌≡◌, ℕ, ◌<◌, ◌≤◌, ℤ, pos, ◌<ℤ◌, ◌≤ℤ◌, unsigned_abs, false, length, IfSome, IfNone, IsTrue};
ghost use Rattle.cox_base.specs.IntegerMatrix.{integer_matrix};
ghost use Rattle.cox_poly.specs.Polynomial.{coefficient, HasDegreeBelow};
ghost use Rattle.cox_poly.specs.Limit.{IsWithin, AllWithin, IsFirstAbove};
ghost use Rattle.cox_context.specs.Numbers.{word_at};
ghost use Rattle.cox_row.specs.Rising.{number_at};
ghost use Rattle.cox_row.specs.RowOf.{IsRowAt};
ghost use Rattle.cox_row.specs.Within.{IsRowWithin};
ghost use Rattle.cox_row_builder.specs.LargeMembers.{IsWithinLimit};
ghost use Rattle.cox_inverse.specs.InverseFaults.{IsInverseFault, IsPair};
ghost use Rattle.cox_inverse.specs.Intervals.{IsInterval, AreRowsThere, ArePairsSmall};

use crate::fault::{InverseFault, MAX_COEFFICIENT};
use crate::interval::Interval;
use cox_context::Context;
use cox_poly::PolyView;
use cox_row::{LowerRows, Row, polynomial};

/// The fault of the first P(x,z) with a coefficient above [`MAX_COEFFICIENT`], by rising z and then by rising x, if there is one.
///
pub(crate) fn first_large<L: LowerRows>(
    ctx: &Context,
    interval: &Interval,
    lower: &L,
) -> Option<InverseFault>
    requires interval { IsInterval ctx.now interval.now }
    requires lower { L.elements lower.now ≡ ctx.now }
    requires rows { AreRowsThere (L.holds lower.now) interval.now }
    ensures some { IfSome result (λ fault. (limit : ℤ) → IsInverseFault ctx.now interval.now.bottom interval.now.top limit fault) }
    ensures none { IfNone result (ArePairsSmall ctx.now interval.now.bottom interval.now.top) }
{
    let _len = ctx.len();
    let limit = lower.limit();
    for k in 0..interval.members.len() {
        let row = lower.row(interval.members[k]);
        if let Some(fault) = first_in_row(ctx, interval, k, row, limit) {
            return Some(fault);
        }
    }
    None
}

/// The fault of the first P(x,z) with a coefficient above [`MAX_COEFFICIENT`] for one z, the member at the place k, if there is one.
///
/// Where the limit of the row is not above that, there is none, and nothing is looked at.
fn first_in_row(
    ctx: &Context,
    interval: &Interval,
    k: usize,
    row: &Row,
    limit: i64,
) -> Option<InverseFault>
    requires interval { IsInterval ctx.now interval.now }
    requires place { k < length interval.now.members.items }
    requires row { IsRowAt ctx.now (number_at interval.now.members.items k) row.now }
    requires within { IsRowWithin limit row.now }
    requires least { pos 0 ≤ℤ limit }
    ensures some { IfSome result (λ fault. (most : ℤ)
        → ((u v : ℕ) → v < number_at interval.now.members.items k → IsPair ctx.now interval.now.bottom interval.now.top u v
        → IsWithinLimit (integer_matrix ctx.now.matrix) MAX_COEFFICIENT (word_at ctx.now.members u) (word_at ctx.now.members v))
        → IsInverseFault ctx.now interval.now.bottom interval.now.top most fault) }
    ensures none { IfNone result ((x : ℕ) → IsPair ctx.now interval.now.bottom interval.now.top x (number_at interval.now.members.items k)
        → IsWithinLimit (integer_matrix ctx.now.matrix) MAX_COEFFICIENT (word_at ctx.now.members x)
        (word_at ctx.now.members (number_at interval.now.members.items k))) }
{
    let _len = ctx.len();
    if limit <= MAX_COEFFICIENT {
        return None;
    }
    let z = interval.members[k];
    for j in 0..k + 1 {
        let x = interval.members[j];
        if let Some(p) = polynomial(ctx, row, z, x) {
            if let Some(degree) = large_degree(&p, MAX_COEFFICIENT) {
                return Some(InverseFault::Coefficient {
                    x,
                    z,
                    degree,
                    value: p.coefficient(degree),
                });
            }
        }
    }
    None
}

/// The least degree with a coefficient above the limit in absolute value, if there is one.
pub(crate) fn large_degree(p: &PolyView<'_>, limit: i64) -> Option<u32>
    requires { pos 0 ≤ℤ limit }
    ensures some { IfSome result (λ d. IsFirstAbove limit p.now d (coefficient p.now d)) }
    ensures none { IfNone result (AllWithin limit p.now) }
{
    let degree = p.degree()?;
    for d in 0..degree {
        if is_large(p.coefficient(d), limit) {
            return Some(d);
        }
    }
    if is_large(p.coefficient(degree), limit) {
        Some(degree)
    } else {
        None
    }
}

/// Whether the absolute value is above the limit.
fn is_large(c: i64, limit: i64) -> bool
    requires { pos 0 ≤ℤ limit }
    ensures above { IsTrue result → limit <ℤ pos (unsigned_abs c) }
    ensures within { result ≡ false → IsWithin limit c }
{
    c.unsigned_abs() > limit as u64
}
