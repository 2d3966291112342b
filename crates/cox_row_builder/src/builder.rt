//! A row that is being made, from the polynomials of its extremal members, one after another.
ghost use Rattle.std.specs.Prelude.{◌≡◌, ◌+◌, ◌<◌, ◌≤◌, length, IfOk, IfErr, ℤ, pos, ◌≤ℤ◌, unsigned_abs, OnOk};
ghost use Rattle.cox_base.specs.Bruhat.{IsBelow};
ghost use Rattle.cox_base.specs.IntegerMatrix.{integer_matrix};
ghost use Rattle.cox_poly.specs.Polynomial.{coefficient};
ghost use Rattle.cox_hecke.specs.Row.{IsKazhdanLusztig};
ghost use Rattle.cox_context.specs.Numbers.{word_at};
ghost use Rattle.cox_row.specs.Extremal.{IsExtremal};
ghost use Rattle.cox_row.specs.RowOf.{IsRowAt};
ghost use Rattle.cox_row.specs.Within.{IsRowWithin, AreSmallMus};
ghost use Rattle.cox_row_builder.specs.Faults.{IsFault, IsNarrowFault};
ghost use Rattle.cox_row_builder.specs.Underway.{IsUnderway, AreBare};

use crate::StepFault;
use crate::large::{LargeCoefficient, LargeMembers};
use crate::mus::{Mus, middle};
use crate::polynomials::RowPolynomials;
use crate::target::least_shift;
use cox_context::Context;
use cox_poly::{Acc, PolyFault};
use cox_row::{MU_LIMIT, Row};
use std::alloc::{AllocError, Global};

/// For how many values of mu a row has room at first, at most.
const USUAL_MUS: usize = 64;

/// A row that is being made: what it has of the members before one.
#[derive(Drop)]
pub struct RowBuilder {
    pub(crate) values: RowPolynomials,
    pub(crate) mus: Mus,
    /// Where this has a member, there is no row, and what the other fields have is no longer asked for.
    pub(crate) large: LargeMembers,
    /// The members before this one are done.
    pub(crate) done: u32,
    /// The least number of a shift from there on, or that of w itself.
    pub(crate) next: u32,
}

impl RowBuilder {
    /// Nothing is done, and there is room for so many extremal members.
    pub fn with_capacity(
        alloc: Global,
        ctx: &Context,
        i: u32,
        count: usize,
    ) -> Result<RowBuilder, AllocError>
        requires { i < length ctx.now.members }
        ensures underway { IfOk result (λ builder. (limit : ℤ) → IsUnderway ctx.now i limit builder) }
        ensures done { IfOk result (λ builder. builder.done ≡ 0) }
    {
        let next = least_shift(ctx, i, 0);
        Ok(RowBuilder {
            values: RowPolynomials::with_capacity(alloc, count)?,
            mus: Mus::with_capacity(alloc, count.min(USUAL_MUS))?,
            large: LargeMembers::new(alloc),
            done: 0,
            next,
        })
    }

    /// Gives back memory that is not used.
    fn shrink(&mut self)
        ensures extremal { self.new.values.extremal.items ≡ self.old.values.extremal.items }
        ensures places { self.new.values.places ≡ self.old.values.places }
        ensures pool { self.new.values.pool ≡ self.old.values.pool }
        ensures numbers { self.new.mus.numbers.items ≡ self.old.mus.numbers.items }
    {
        self.values.extremal.shrink_to_fit();
        self.values.places.shrink_to_fit();
        self.mus.numbers.shrink_to_fit();
    }

    /// Notes mu = 1 for each shorter shift (sw or ws) among the members from those done up to
    /// `end`. None of these members is both extremal and below w.
    pub fn pass(&mut self, ctx: &Context, i: u32, end: u32) -> Result<(), AllocError>
        requires i { i < length ctx.now.members }
        requires ahead { self.old.done ≤ end }
        requires end { end ≤ i }
        ensures passed { OnOk result ((limit : ℤ) → IsUnderway ctx.now i limit self.old
            → AreBare ctx.now i self.old.done end → IsUnderway ctx.now i limit self.new) }
        ensures done { OnOk result (self.new.done ≡ end) }
    {
        let _len = ctx.len();
        while self.next < end {
            self.mus.note(self.next, 1)?;
            self.next = least_shift(ctx, i, self.next + 1);
        }
        self.done = end;
        Ok(())
    }

    /// One extremal member more, which is below w, with the sums of its polynomial. It is not kept if it has a coefficient above the limit.
    pub fn keep(&mut self, ctx: &Context, i: u32, sums: &Acc, limit: i64) -> Result<(), AllocError>
        requires i { i < length ctx.now.members }
        requires x { self.old.done ≤ i }
        requires extremal { IsExtremal (integer_matrix ctx.now.matrix) (word_at ctx.now.members i) (word_at ctx.now.members self.old.done) }
        requires below { IsBelow (integer_matrix ctx.now.matrix) (word_at ctx.now.members self.old.done) (word_at ctx.now.members i) }
        requires value { IsKazhdanLusztig (integer_matrix ctx.now.matrix) (word_at ctx.now.members self.old.done)
            (word_at ctx.now.members i) (coefficient sums.now) }
        requires underway { IsUnderway ctx.now i limit self.old }
        ensures underway { OnOk result (IsUnderway ctx.now i limit self.new) }
        ensures done { OnOk result (self.new.done ≡ self.old.done + 1) }
    {
        let _len = ctx.len();
        let alloc = *self.values.extremal.allocator();
        let x = self.done;
        match self.values.keep(alloc, x, sums, limit) {
            Ok(place) => {
                let value = middle(ctx, &self.values.pool.at(place as usize), i, x);
                self.mus.note(x, value)?;
            }
            Err(PolyFault::TooBig { degree, value }) => {
                self.large.note(x, LargeCoefficient { degree, value })?;
            }
            Err(PolyFault::NoMemory) => return Err(AllocError),
        }
        self.done = x + 1;
        Ok(())
    }

    /// The row of the member w with the number i, when each member up to it is done.
    ///
    /// `Coefficient` where a coefficient is above the limit in absolute value, at the first member x that has one and its least degree; and
    /// `Mu` where none is but a value of mu is above [`MU_LIMIT`].
    pub fn finish(self, alloc: Global, ctx: &Context, i: u32, limit: i64) -> Result<Row, StepFault>
        requires i { i < length ctx.now.members }
        requires done { self.done ≡ i + 1 }
        requires limit { pos 0 ≤ℤ limit }
        requires underway { IsUnderway ctx.now i limit self }
        ensures row { IfOk result (IsRowAt ctx.now i) }
        ensures within { IfOk result (IsRowWithin limit) }
        ensures fault { IfErr result (IsFault (integer_matrix ctx.now.matrix) ctx.now.members limit (λ w. w ≡ i)) }
    {
        let _len = ctx.len();
        let _ = limit;
        let mut builder = self;
        if let Some(fault) = builder.large.fault(ctx, i) {
            return Err(fault);
        }
        let mu = match narrow(alloc, i, &builder.mus) {
            Ok(mu) => mu,
            Err(fault) => return Err(fault),
        };
        builder.shrink();
        let RowBuilder { values, mus, .. } = builder;
        let RowPolynomials {
            extremal,
            places,
            pool,
        } = values;
        Ok(Row::own(alloc, extremal, places, pool.into_list(), mus.numbers, mu)?)
    }

    /// How many members are done, all those before the one with this number.
    pub fn done(&self) -> u32
        ensures { result ≡ self.now.done }
    {
        self.done
    }
}

/// The values of mu of the row of the member w in fewer bits.
fn narrow(alloc: Global, w: u32, mus: &Mus) -> Result<Vec<i32>, StepFault>
    requires { length mus.now.values.items ≡ length mus.now.numbers.items }
    ensures values { IfOk result (λ v. v.items ≡ mus.now.values.items) }
    ensures small { IfOk result (λ v. AreSmallMus v.items) }
    ensures fault { IfErr result (IsNarrowFault w mus.now.numbers.items mus.now.values.items) }
{
    let Ok(mut narrowed) = Vec::with_capacity(alloc, mus.values.len()) else {
        return Err(StepFault::NoMemory);
    };
    for (k, value) in mus.values.iter().enumerate() {
        if value.unsigned_abs() > MU_LIMIT {
            return Err(StepFault::Mu {
                x: mus.numbers[k],
                w,
                value: *value,
            });
        }
        let Ok(()) = narrowed.push(narrow_value(*value)) else {
            return Err(StepFault::NoMemory);
        };
    }
    Ok(narrowed)
}

/// A value of mu in fewer bits.
fn narrow_value(value: i64) -> i32
    requires { unsigned_abs value ≤ MU_LIMIT }
    ensures { result ≡ value }
{
    value as i32
}
