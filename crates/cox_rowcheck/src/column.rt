//! R-polynomials by columns: the column of v has R(x,v) for each member x up to v, in ShortLex order. Behind v it is 0.
//!
//! The column of vt, for a letter t that makes v longer, is made from that of v: R(x,vt) is R(xt,v) where t shortens x, else
//! (q-1) R(x,v) + q R(xt,v) (Humphreys 7.5). Where xt is no member it is not below v, and R(xt,v) is 0.
ghost use Rattle.std.specs.Prelude.{◌≡◌, ◌<◌, ◌∷◌, [], ◌++◌, length, Contains, IfOk, OnOk};
ghost use Rattle.cox_base.specs.Matrix.{IsLetter};
ghost use Rattle.cox_base.specs.IntegerMatrix.{integer_matrix};
ghost use Rattle.cox_base.specs.ShortLex.{normal_form};
ghost use Rattle.cox_base.specs.Descents.{IsRightDescent};
ghost use Rattle.cox_rpoly.specs.declared.TheConstants.{MAX_DIFFERENCE};
ghost use Rattle.cox_rpoly.specs.RPolynomial.{r_polynomial};
ghost use Rattle.cox_context.specs.Numbers.{word_at};
ghost use Rattle.cox_rowcheck.specs.Columns.{IsColumn};
ghost use Rattle.cox_rowcheck.specs.EntryLists.{HasOneMore};
ghost use Rattle.cox_rowcheck.specs.Prefixes.{IsColumnOf};

use crate::entries::Entries;
use cox_context::Context;
use std::alloc::{AllocError, Global};

/// A member v and its column.
#[derive(Drop)]
pub(crate) struct Column {
    /// The number of v.
    pub(crate) number: u32,
    /// R(x,v) for the members x up to v.
    pub(crate) entries: Entries,
}

/// Puts R(x,vt) for the i-th member x behind the entries, by the column of v, which is the member with the number `at`.
fn push_next(
    ctx: &Context,
    at: u32,
    t: u8,
    column: &Entries,
    i: u32,
    entries: &mut Entries,
) -> Result<(), AllocError>
    requires at { at < length ctx.now.members }
    requires letter { IsLetter ctx.now.matrix.rank t }
    requires ascent { ¬ IsRightDescent (integer_matrix ctx.now.matrix) (word_at ctx.now.members at) t }
    requires column { IsColumn (integer_matrix ctx.now.matrix) ctx.now.members (word_at ctx.now.members at) column.now }
    requires short { length (word_at ctx.now.members at) < MAX_DIFFERENCE }
    requires i { i < length ctx.now.members }
    ensures { OnOk result (HasOneMore entries.old entries.new
        (r_polynomial (integer_matrix ctx.now.matrix) (word_at ctx.now.members i) (word_at ctx.now.members at ++ t ∷ []))) }
{
    let _len = ctx.len();
    let here = column.at(i as usize);
    match ctx.right(t, i) {
        Some(j) if j < i => entries.push(column.at(j as usize)),
        Some(j) => entries.push_combined(here, column.at(j as usize)),
        None => entries.push_combined(here, &[]),
    }
}

/// The column of vt, which is the member with the number `next`, by that of v, the one with the number `at`.
fn next_entries(
    alloc: Global,
    ctx: &Context,
    at: u32,
    t: u8,
    next: u32,
    column: &Entries,
) -> Result<Entries, AllocError>
    requires at { at < length ctx.now.members }
    requires next { next < length ctx.now.members }
    requires leads { word_at ctx.now.members next ≡ normal_form (integer_matrix ctx.now.matrix) (word_at ctx.now.members at ++ t ∷ []) }
    requires letter { IsLetter ctx.now.matrix.rank t }
    requires ascent { ¬ IsRightDescent (integer_matrix ctx.now.matrix) (word_at ctx.now.members at) t }
    requires column { IsColumn (integer_matrix ctx.now.matrix) ctx.now.members (word_at ctx.now.members at) column.now }
    requires short { length (word_at ctx.now.members at) < MAX_DIFFERENCE }
    ensures { IfOk result (λ entries. IsColumn (integer_matrix ctx.now.matrix) ctx.now.members
        (word_at ctx.now.members next) entries) }
{
    let _len = ctx.len();
    let mut entries = Entries::new(alloc, next + 1, ctx.length(next) + 1)?;
    for i in 0..next + 1 {
        push_next(ctx, at, t, column, i, &mut entries)?;
    }
    Ok(entries)
}

/// The identity and its column: R(e,e) is 1.
pub(crate) fn first(alloc: Global, ctx: &Context) -> Result<Column, AllocError>
    ensures { IfOk result (IsColumnOf (integer_matrix ctx.now.matrix) ctx.now.members []) }
{
    let _len = ctx.len();
    let mut entries = Entries::new(alloc, 1, 1)?;
    entries.push(&[1])?;
    Ok(Column { number: 0, entries })
}

/// The member vt and its column, by those of v.
pub(crate) fn longer(
    alloc: Global,
    ctx: &Context,
    column: &Column,
    t: u8,
) -> Result<Column, AllocError>
    requires number { column.now.number < length ctx.now.members }
    requires column { IsColumn (integer_matrix ctx.now.matrix) ctx.now.members
        (word_at ctx.now.members column.now.number) column.now.entries }
    requires letter { IsLetter ctx.now.matrix.rank t }
    requires ascent { ¬ IsRightDescent (integer_matrix ctx.now.matrix) (word_at ctx.now.members column.now.number) t }
    requires short { length (word_at ctx.now.members column.now.number) < MAX_DIFFERENCE }
    requires member { Contains ctx.now.members
        (normal_form (integer_matrix ctx.now.matrix) (word_at ctx.now.members column.now.number ++ t ∷ [])) }
    ensures { IfOk result (IsColumnOf (integer_matrix ctx.now.matrix) ctx.now.members
        (word_at ctx.now.members column.now.number ++ t ∷ [])) }
{
    let Some(number) = ctx.right(t, column.number) else {
        unreachable!();
    };
    let entries = next_entries(alloc, ctx, column.number, t, number, &column.entries)?;
    Ok(Column { number, entries })
}
