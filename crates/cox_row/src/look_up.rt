//! What is read off a row: the polynomial and mu of any member, how many polynomials there are, and the extremal members.
ghost use Rattle.std.specs.Prelude.{◌≡◌, ◌≢◌, ℕ, ◌<◌, ◌↔◌, length, IfSome, IfNone, IsSome, IfOk};
ghost use Rattle.std.specs.Arc.{arc_value};
ghost use Rattle.cox_base.specs.IntegerMatrix.{integer_matrix};
ghost use Rattle.cox_base.specs.Bruhat.{IsBelow};
ghost use Rattle.cox_poly.specs.Polynomial.{coefficient};
ghost use Rattle.cox_hecke.specs.Row.{IsKazhdanLusztig, IsMu};
ghost use Rattle.cox_context.specs.Numbers.{word_at};
ghost use Rattle.cox_row.specs.Rising.{number_at, AreRising};
ghost use Rattle.cox_row.specs.Index.{IsIndexOf};
ghost use Rattle.cox_row.specs.ExtremalNumbers.{AreExtremal};
ghost use Rattle.cox_row.specs.RowOf.{IsRowAt, AreValuesOf};
ghost use Rattle.cox_row.specs.Distinct.{HasDistinctPolynomials};

use crate::Row;
use crate::raised::is_extremal;
use crate::reader::RowReader;
use crate::row_index::RowIndex;
use crate::search::place_of_number;
use cox_context::Context;
use cox_poly::PolyView;
use std::alloc::{AllocError, Global};

/// P(x,w), for the row of the member w with the number i and the member x with the number x; `None` exactly where x <= w fails.
///
/// In A 3 the row of 2132 has 1 + q at x = 2 and at x = e, and 1 at all other x <= w.
pub fn polynomial<'a>(ctx: &Context, row: &'a Row, i: u32, x: u32) -> Option<PolyView<'a>>
    requires i { i < length ctx.now.members }
    requires x { x < length ctx.now.members }
    requires row { IsRowAt ctx.now i row.now }
    ensures value { IfSome result (λ p. IsKazhdanLusztig (integer_matrix ctx.now.matrix) (word_at ctx.now.members x)
        (word_at ctx.now.members i) (coefficient p)) }
    ensures exactly { IsSome result ↔ IsBelow (integer_matrix ctx.now.matrix) (word_at ctx.now.members x) (word_at ctx.now.members i) }
{
    RowReader::of(ctx, row, None, i).polynomial(ctx, x)
}

/// The same with the index of that row, which has no search among its extremal members.
pub fn indexed_polynomial<'a>(
    ctx: &Context,
    row: &'a Row,
    index: &'a RowIndex,
    i: u32,
    x: u32,
) -> Option<PolyView<'a>>
    requires i { i < length ctx.now.members }
    requires x { x < length ctx.now.members }
    requires row { IsRowAt ctx.now i row.now }
    requires index { IsIndexOf (arc_value row.now.values).extremal.items index.now }
    ensures value { IfSome result (λ p. IsKazhdanLusztig (integer_matrix ctx.now.matrix) (word_at ctx.now.members x)
        (word_at ctx.now.members i) (coefficient p)) }
    ensures exactly { IsSome result ↔ IsBelow (integer_matrix ctx.now.matrix) (word_at ctx.now.members x) (word_at ctx.now.members i) }
{
    RowReader::of(ctx, row, Some(index), i).polynomial(ctx, x)
}

/// mu(u,w), for the row of the member w with the number i and the member u with the number u.
pub fn mu(ctx: &Context, row: &Row, i: u32, u: u32) -> i32
    requires i { i < length ctx.now.members }
    requires u { u < length ctx.now.members }
    requires row { IsRowAt ctx.now i row.now }
    ensures { IsMu (integer_matrix ctx.now.matrix) (word_at ctx.now.members u) (word_at ctx.now.members i) result }
{
    let _len = ctx.len();
    match place_of_number(row.neighbours(), u) {
        Some(k) => row.mu()[k],
        None => 0,
    }
}

/// How many polynomials P(x,w) with x <= w there are, each counted once, for the row of the member w with the number i.
///
/// For the longest element of a finite group there is one, the polynomial 1.
pub fn pool_len(ctx: &Context, row: &Row, i: u32) -> u32
    requires i { i < length ctx.now.members }
    requires row { IsRowAt ctx.now i row.now }
    ensures { HasDistinctPolynomials (integer_matrix ctx.now.matrix) (word_at ctx.now.members i) result }
{
    let _len = ctx.len();
    row.pool().len() as u32
}

/// The numbers of the extremal x <= w, rising, for the row of the member w with the number i.
///
/// In A 3 those of 2132 are the numbers of 2, 121, 232 and 2132.
pub fn extremal_members(
    alloc: Global,
    ctx: &Context,
    row: &Row,
    i: u32,
) -> Result<Vec<u32>, AllocError>
    requires i { i < length ctx.now.members }
    requires row { IsRowAt ctx.now i row.now }
    ensures { IfOk result (λ v. AreExtremal (integer_matrix ctx.now.matrix) ctx.now.members (word_at ctx.now.members i) v.items) }
{
    let _len = ctx.len();
    let mut numbers = Vec::new(alloc);
    for x in 0..i + 1 {
        if is_extremal(ctx, i, x) && polynomial(ctx, row, i, x).is_some() {
            numbers.push(x)?;
        }
    }
    Ok(numbers)
}
