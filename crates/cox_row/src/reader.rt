//! A row, made ready for many look-ups.
ghost use Rattle.std.specs.Prelude.{◌≡◌, ◌≢◌, ℕ, ◌<◌, ◌↔◌, length, IfSome, IfNone, IsSome, IsTrue};
ghost use Rattle.std.specs.Arc.{arc_value};
ghost use Rattle.cox_base.specs.IntegerMatrix.{integer_matrix};
ghost use Rattle.cox_base.specs.Bruhat.{IsBelow};
ghost use Rattle.cox_poly.specs.Polynomial.{coefficient};
ghost use Rattle.cox_hecke.specs.Row.{IsKazhdanLusztig};
ghost use Rattle.cox_context.specs.Numbers.{word_at};
ghost use Rattle.cox_row.specs.Rising.{number_at, AreRising};
ghost use Rattle.cox_row.specs.Index.{IsIndexOf};
ghost use Rattle.cox_row.specs.Polynomials.{polynomial_at};
ghost use Rattle.cox_row.specs.Readers.{IsReader};
ghost use Rattle.cox_row.specs.RowOf.{IsRowAt};

use crate::Row;
use crate::raised::raise_by;
use crate::row::{SharedPolynomials, Values};
use crate::row_index::{RowIndex, place_by_index};
use crate::search::place_of_number;
use cox_context::Context;
use cox_poly::PolyView;

/// The row of a member w, made ready for many look-ups: what does not depend on the member that is looked up is found once.
#[derive(Clone, Copy)]
pub struct RowReader<'a> {
    /// The number of w.
    pub number: u32,
    pub(crate) values: &'a Values,
    /// The index of the polynomials, if there is one: with it there is no search among the extremal members.
    pub(crate) index: Option<&'a RowIndex>,
    /// Where the polynomials of another element serve for w.
    pub(crate) view: Option<&'a SharedPolynomials>,
    /// The number of the member whose polynomials these are, and its descents.
    pub(crate) member: u32,
    pub(crate) left: u16,
    pub(crate) right: u16,
}

impl<'a> RowReader<'a> {
    /// The reader of the row of the member with the number i, by the index of that row if there is one.
    // fast: inlined, as the look-ups are, so that in a loop over them what is found once stays in registers
    #[inline(always)]
    pub fn of(ctx: &Context, row: &'a Row, index: Option<&'a RowIndex>, i: u32) -> RowReader<'a>
        requires i { i < length ctx.now.members }
        requires row { IsRowAt ctx.now i row.now }
        requires index { IfSome index (λ index. IsIndexOf (arc_value row.now.values).extremal.items index.now) }
        ensures number { result.number ≡ i }
        ensures reader { IsReader ctx.now result }
    {
        let _len = ctx.len();
        let view = row.view();
        let member = match view {
            None => i,
            Some(view) => view.member,
        };
        RowReader {
            number: i,
            values: row.values(),
            index,
            view,
            member,
            left: ctx.left_descent_set(member),
            right: ctx.right_descent_set(member),
        }
    }

    /// P(x,w), for the member x with the number x; `None` exactly where x <= w fails.
    #[inline(always)]
    pub fn polynomial(&self, ctx: &Context, x: u32) -> Option<PolyView<'a>>
        requires reader { IsReader ctx.now self.now }
        requires x { x < length ctx.now.members }
        ensures value { IfSome result (λ p. IsKazhdanLusztig (integer_matrix ctx.now.matrix) (word_at ctx.now.members x)
            (word_at ctx.now.members self.now.number) (coefficient p)) }
        ensures exactly { IsSome result ↔ IsBelow (integer_matrix ctx.now.matrix) (word_at ctx.now.members x)
            (word_at ctx.now.members self.now.number) }
    {
        let k = self.place(ctx, x)?;
        Some(self.values.pool.at(self.values.places.at(k) as usize))
    }

    /// Whether x <= w, for the member x with the number x.
    #[inline(always)]
    pub fn has(&self, ctx: &Context, x: u32) -> bool
        requires reader { IsReader ctx.now self.now }
        requires x { x < length ctx.now.members }
        ensures { IsTrue result ↔ IsBelow (integer_matrix ctx.now.matrix) (word_at ctx.now.members x)
            (word_at ctx.now.members self.now.number) }
    {
        self.place(ctx, x).is_some()
    }

    /// Where P(x,w) stands among the extremal members, for the member x with the number x; `None` exactly where x <= w fails.
    #[inline(always)]
    fn place(&self, ctx: &Context, x: u32) -> Option<usize>
        requires reader { IsReader ctx.now self.now }
        requires x { x < length ctx.now.members }
        ensures within { IfSome result (λ k. k < length self.now.values.now.extremal.items) }
        ensures value { IfSome result (λ k. IsKazhdanLusztig (integer_matrix ctx.now.matrix) (word_at ctx.now.members x)
            (word_at ctx.now.members self.now.number)
            (coefficient (polynomial_at self.now.values.now.pool (number_at self.now.values.now.places k)))) }
        ensures exactly { IsSome result ↔ IsBelow (integer_matrix ctx.now.matrix) (word_at ctx.now.members x)
            (word_at ctx.now.members self.now.number) }
    {
        let _len = ctx.len();
        match self.view {
            None => self.kept_place(ctx, x),
            Some(view) => {
                let image = view.images.image(ctx, x)?;
                self.kept_place(ctx, image)
            }
        }
    }

    /// The same for P(x,v), where v is the member whose polynomials these are.
    #[inline(always)]
    fn kept_place(&self, ctx: &Context, x: u32) -> Option<usize>
        requires reader { IsReader ctx.now self.now }
        requires x { x < length ctx.now.members }
        ensures within { IfSome result (λ k. k < length self.now.values.now.extremal.items) }
        ensures value { IfSome result (λ k. IsKazhdanLusztig (integer_matrix ctx.now.matrix) (word_at ctx.now.members x)
            (word_at ctx.now.members self.now.member)
            (coefficient (polynomial_at self.now.values.now.pool (number_at self.now.values.now.places k)))) }
        ensures exactly { IsSome result ↔ IsBelow (integer_matrix ctx.now.matrix) (word_at ctx.now.members x)
            (word_at ctx.now.members self.now.member) }
    {
        let _len = ctx.len();
        let top = raise_by(ctx, self.member, self.left, self.right, x)?;
        place_in(&self.values.extremal, self.index, top)
    }
}

/// The place of a number in a list that rises, if it is there; with the index of that list, if there is one.
#[inline(always)]
fn place_in(numbers: &[u32], index: Option<&RowIndex>, x: u32) -> Option<usize>
    requires rising { AreRising numbers.now }
    requires index { IfSome index (λ index. IsIndexOf numbers.now index.now) }
    ensures within { IfSome result (λ k. k < length numbers.now) }
    ensures place { IfSome result (λ k. number_at numbers.now k ≡ x) }
    ensures none { IfNone result ((k : ℕ) → k < length numbers.now → number_at numbers.now k ≢ x) }
{
    match index {
        Some(index) => place_by_index(numbers, index, x),
        None => place_of_number(numbers, x),
    }
}
