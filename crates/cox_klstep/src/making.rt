//! Makes the row of a member, one extremal member after another.
ghost use Rattle.std.specs.Prelude.{◌≡◌, ℕ, ◌+◌, ◌<◌, ◌≤◌, length, IfOk, IfErr, IfSome, Some, pos, ◌≤ℤ◌, OnOk};
ghost use Rattle.cox_base.specs.Bruhat.{IsBelow};
ghost use Rattle.cox_base.specs.IntegerMatrix.{integer_matrix};
ghost use Rattle.cox_base.specs.ShortLex.{normal_form};
ghost use Rattle.cox_base.specs.SideDescents.{times_letter};
ghost use Rattle.cox_context.specs.Numbering.{IsNumberOf};
ghost use Rattle.cox_context.specs.Numbers.{word_at};
ghost use Rattle.cox_row.specs.Extremal.{IsExtremal};
ghost use Rattle.cox_row.specs.RowOf.{IsRowAt};
ghost use Rattle.cox_row.specs.Within.{IsRowWithin};
ghost use Rattle.cox_row_builder.specs.Faults.{IsFault};
ghost use Rattle.cox_row_builder.specs.Underway.{IsUnderway};
ghost use Rattle.cox_klstep.specs.CountedSteps.{IsWithinCost, IsCounted, IsWithinCostTo, IsCountedTo};
ghost use Rattle.cox_klstep.specs.FoundTogether.{IsFoundFor, AreFound};
ghost use Rattle.cox_klstep.specs.Plans.{IsPlan, plan_cost};
ghost use Rattle.cox_klstep.specs.SourceOf.{source_cost};
ghost use Rattle.cox_klstep.specs.TablesOf.{AreTables};
ghost use Rattle.cox_klstep.specs.Tasks.{IsTask};

use crate::parallel::{FoundCursor, FoundPolynomial};
use crate::plan::RowPlan;
use crate::sums::{Source, put_polynomial};
use crate::tables::Tables;
use crate::task::RowTask;
use cox_context::Context;
use cox_poly::{Acc, Poly};
use cox_row::Row;
use cox_row_builder::{RowBuilder, StepFault, Steps};
use std::alloc::{AllocError, Global};

impl<'a> RowPlan<'a> {
    /// Makes the row, of which some polynomials may have been found. For each of those that it takes `steps` counts one, whatever was added
    /// up to find it; what is added up for the others is counted as in [`row`](crate::row).
    ///
    /// `Coefficient` where a coefficient is above the limit in absolute value, at the first member x that has one and its least degree; and
    /// `Mu` where none is but a value of mu is above [`MU_LIMIT`](cox_row::MU_LIMIT).
    pub fn finish(
        self,
        alloc: Global,
        ctx: &Context,
        tables: &mut Tables,
        found: Vec<FoundPolynomial>,
        steps: &mut Steps,
    ) -> Result<Row, StepFault>
        requires plan { IsPlan ctx.now tables.old self }
        requires found { AreFound ctx.now self.step.member found.items }
        requires tables { AreTables ctx.now tables.old }
        ensures row { IfOk result (IsRowAt ctx.now self.entry.step.member) }
        ensures within { IfOk result (IsRowWithin self.entry.limit) }
        ensures fault { IfErr result (IsFault (integer_matrix ctx.now.matrix) ctx.now.members self.entry.limit
            (λ w. w ≡ self.entry.step.member)) }
        ensures tables { AreTables ctx.now tables.new }
        ensures steps { IsWithinCost ctx.now self.entry.step.member (plan_cost self.entry) steps.old steps.new }
        ensures counted { IfOk result (λ _. IsCounted ctx.now self.entry.step.member steps.old steps.new) }
    {
        let source = Source {
            step: &self.step,
            lower: self.lower,
            index: &tables.index,
            needed: self.needed.as_slice(),
        };
        let task = RowTask {
            ctx,
            member: self.step.member,
            source: &source,
            lowered: &tables.lowered,
            limit: self.limit,
        };
        make_row(alloc, &task, found, &mut tables.sums, steps)
    }
}

/// The row of a member w, of which threads may have found some polynomials. What the sums had before does not matter.
fn make_row(
    alloc: Global,
    task: &RowTask,
    found: Vec<FoundPolynomial>,
    sums: &mut Acc,
    steps: &mut Steps,
) -> Result<Row, StepFault>
    requires task { IsTask task.now }
    requires found { AreFound task.now.ctx.now task.now.member found.items }
    requires limit { pos 0 ≤ℤ task.now.limit }
    ensures row { IfOk result (IsRowAt task.now.ctx.now task.now.member) }
    ensures within { IfOk result (IsRowWithin task.now.limit) }
    ensures fault { IfErr result (IsFault (integer_matrix task.now.ctx.now.matrix) task.now.ctx.now.members task.now.limit
        (λ w. w ≡ task.now.member)) }
    ensures steps { IsWithinCost task.now.ctx.now task.now.member (source_cost task.now.source.now) steps.old steps.new }
    ensures counted { IfOk result (λ _. IsCounted task.now.ctx.now task.now.member steps.old steps.new) }
{
    let ctx = task.ctx;
    let i = task.member;
    let lowered = task.lowered;
    let _len = ctx.len();
    let mut builder = RowBuilder::with_capacity(alloc, ctx, i, lowered.len())?;
    let mut cursor = FoundCursor::new(found);
    for k in 0..lowered.len() {
        let next = lowered.at(k);
        builder.pass(ctx, i, next.member)?;
        cursor.come_to(next.member);
        let found = cursor.polynomial(next.member);
        add_extremal(task, next.shorter, found, &mut builder, sums, steps)?;
    }
    builder.finish(alloc, ctx, i, task.limit)
}

/// One extremal x <= w more, from which the step leads to the member `shorter`, with its polynomial if that was found before.
fn add_extremal(
    task: &RowTask,
    shorter: u32,
    found: Option<&Poly>,
    builder: &mut RowBuilder,
    sums: &mut Acc,
    steps: &mut Steps,
) -> Result<(), AllocError>
    requires task { IsTask task.now }
    requires x { builder.old.done ≤ task.now.member }
    requires extremal { IsExtremal (integer_matrix task.now.ctx.now.matrix) (word_at task.now.ctx.now.members task.now.member)
        (word_at task.now.ctx.now.members builder.old.done) }
    requires below { IsBelow (integer_matrix task.now.ctx.now.matrix) (word_at task.now.ctx.now.members builder.old.done)
        (word_at task.now.ctx.now.members task.now.member) }
    requires shorter { IsNumberOf task.now.ctx.now.members (normal_form (integer_matrix task.now.ctx.now.matrix)
        (times_letter task.now.source.now.step.now.side task.now.source.now.step.now.letter
        (word_at task.now.ctx.now.members builder.old.done))) (Some shorter) }
    requires found { IfSome found (λ p. IsFoundFor task.now.ctx.now task.now.member builder.old.done p.now) }
    requires underway { IsUnderway task.now.ctx.now task.now.member task.now.limit builder.old }
    ensures underway { OnOk result (IsUnderway task.now.ctx.now task.now.member task.now.limit builder.new) }
    ensures done { OnOk result (builder.new.done ≡ builder.old.done + 1) }
    ensures steps { (start : ℕ)
        → IsWithinCostTo task.now.ctx.now task.now.member (source_cost task.now.source.now) builder.old.done start steps.old
        → IsWithinCostTo task.now.ctx.now task.now.member (source_cost task.now.source.now) (builder.old.done + 1) start steps.new }
    ensures counted { (start : ℕ) → IsCountedTo task.now.ctx.now task.now.member builder.old.done start steps.old
        → IsCountedTo task.now.ctx.now task.now.member (builder.old.done + 1) start steps.new }
{
    let ctx = task.ctx;
    let i = task.member;
    let _len = ctx.len();
    let x = builder.done();
    put_polynomial(ctx, i, task.source, x, shorter, found, sums, steps);
    builder.keep(ctx, i, sums, task.limit)
}
