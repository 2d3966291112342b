//! The recursion at one member x: Q(x,w) is less the sum of (-1)^(l(z)-l(x)) P(x,z) Q(z,w) over the z with x < z <= w.
ghost use Rattle.std.specs.Prelude.{◌≡◌, ℕ, ◌+◌, ◌^◌, ◌<◌, ◌≤◌, length, unsigned_abs, neg_ℤ};
ghost use Rattle.cox_base.specs.IntegerMatrix.{integer_matrix};
ghost use Rattle.cox_base.specs.Bruhat.{IsBelow};
ghost use Rattle.cox_poly.specs.Products.{product};
ghost use Rattle.cox_poly.specs.Multiples.{minus, scaled};
ghost use Rattle.cox_poly.specs.Coefficients.{Coefficients};
ghost use Rattle.cox_poly.specs.Polynomial.{coefficient, HasDegreeBelow};
ghost use Rattle.cox_poly.specs.Limit.{IsWithin, AllWithin};
ghost use Rattle.cox_rpoly.specs.Sign.{times_sign};
ghost use Rattle.cox_context.specs.Numbers.{word_at};
ghost use Rattle.cox_row.specs.RowOf.{IsRowAt};
ghost use Rattle.cox_row_builder.specs.LargeMembers.{IsWithinLimit};
ghost use Rattle.cox_inverse.specs.InverseRow.{IsInverse};
ghost use Rattle.cox_inverse.specs.NumberedInverses.{AreInverses, number_before};
ghost use Rattle.cox_inverse.specs.Intervals.{IsInterval, AreRowsThere, ArePairsSmall, IsMemberOff};

use crate::fault::MAX_COEFFICIENT;
use crate::interval::Interval;
use cox_context::Context;
use cox_poly::{Acc, Poly, PolyView};
use cox_row::{LowerRows, Row, polynomial};

/// The sums become those of Q(x,w), for the last member x of the interval that has no polynomial yet. At least one has.
pub(crate) fn sum_up<L: LowerRows>(
    ctx: &Context,
    interval: &Interval,
    polynomials: &[Poly],
    lower: &L,
    sums: &mut Acc,
)
    requires interval { IsInterval ctx.now interval.now }
    requires lower { L.elements lower.now ≡ ctx.now }
    requires rows { AreRowsThere (L.holds lower.now) interval.now }
    requires small { ArePairsSmall ctx.now interval.now.bottom interval.now.top }
    requires inverses { AreInverses ctx.now interval.now.top MAX_COEFFICIENT interval.now.members.items polynomials.now }
    requires some { 0 < length polynomials.now }
    requires more { length polynomials.now < length interval.now.members.items }
    ensures { let x = number_before interval.now.members.items (length polynomials.now) in
        IsInverse (integer_matrix ctx.now.matrix) (word_at ctx.now.members x) (word_at ctx.now.members interval.now.top)
        (coefficient sums.new) }
{
    let _len = ctx.len();
    let last = interval.members.len() - 1;
    let x = interval.members[last - polynomials.len()];
    sums.clear();
    for (j, r) in polynomials.iter().enumerate() {
        let z = interval.members[last - j];
        take_off_member(ctx, lower.row(z), z, x, &r.view(), sums);
    }
}

/// Takes (-1)^(l(z)-l(x)) P(x,z) r off the sums, for members x <= z and the row of z, and nothing for others.
fn take_off_member(ctx: &Context, row: &Row, z: u32, x: u32, r: &PolyView<'_>, sums: &mut Acc)
    requires z { z < length ctx.now.members }
    requires x { x < length ctx.now.members }
    requires row { IsRowAt ctx.now z row.now }
    requires small { let A = integer_matrix ctx.now.matrix in
        IsBelow A (word_at ctx.now.members x) (word_at ctx.now.members z)
        → IsWithinLimit A MAX_COEFFICIENT (word_at ctx.now.members x) (word_at ctx.now.members z) }
    requires r_degree { HasDegreeBelow r.now 128 }
    requires r_small { AllWithin MAX_COEFFICIENT r.now }
    requires room { (k : ℕ) → unsigned_abs (coefficient sums.old k) ≤ 2 ^ 122 }
    ensures off { IsMemberOff ctx.now x z r.now sums.old sums.new }
    ensures size { (k : ℕ) → unsigned_abs (coefficient sums.new k) ≤ unsigned_abs (coefficient sums.old k) + 2 ^ 101 }
{
    let _len = ctx.len();
    if let Some(p) = polynomial(ctx, row, z, x) {
        let difference = ctx.length(z) - ctx.length(x);
        take_off(&p, r, difference, sums);
    }
}

/// Takes (-1)^d p r off the sums, term by term of p.
fn take_off(p: &PolyView<'_>, r: &PolyView<'_>, d: u32, sums: &mut Acc)
    requires p_degree { HasDegreeBelow p.now 128 }
    requires r_degree { HasDegreeBelow r.now 128 }
    requires p_small { AllWithin MAX_COEFFICIENT p.now }
    requires r_small { AllWithin MAX_COEFFICIENT r.now }
    requires room { (k : ℕ) → unsigned_abs (coefficient sums.old k) ≤ 2 ^ 122 }
    ensures sum { (k : ℕ) → coefficient sums.new k
        ≡ minus (coefficient sums.old) (times_sign d (product (coefficient p.now) (coefficient r.now))) k }
    ensures size { (k : ℕ) → unsigned_abs (coefficient sums.new k) ≤ unsigned_abs (coefficient sums.old k) + 2 ^ 101 }
{
    let Some(degree) = p.degree() else {
        return;
    };
    for k in 0..degree + 1 {
        sums.add_scaled(r, taken_off(p.coefficient(k), d), k);
    }
}

/// -(-1)^d c.
fn taken_off(c: i64, d: u32) -> i64
    requires { IsWithin MAX_COEFFICIENT c }
    ensures sign { (f : Coefficients) → (k : ℕ) → scaled result f k ≡ neg_ℤ (times_sign d (scaled c f) k) }
    ensures size { IsWithin MAX_COEFFICIENT result }
{
    if d % 2 == 0 { -c } else { c }
}
