//! The extremal members below one, and where the step leads from them.
//!
//! Of the extremal members that come before a member w few are below it, as a rule. Which of them are is seen where the step leads: x <= w
//! exactly where sx <= sw, and the row of sw is there. What is known of a member, and where shifts lead from it, stands all over memory.
//! So it is looked up in a tight loop that does nothing else, in which the processor waits for several members at a time.
ghost use Rattle.std.specs.Prelude.{◌≡◌, ◌<◌, length, OnOk};
ghost use Rattle.std.specs.Arc.{arc_value};
ghost use Rattle.cox_base.specs.IntegerMatrix.{integer_matrix};
ghost use Rattle.cox_context.specs.Numbers.{word_at};
ghost use Rattle.cox_row.specs.Rising.{number_at};
ghost use Rattle.cox_row.specs.Index.{IsIndexOf};
ghost use Rattle.cox_row.specs.ExtremalNumbers.{AreExtremal};
ghost use Rattle.cox_row.specs.RowOf.{IsRowAt};
ghost use Rattle.cox_klstep.specs.StepOf.{IsRowStep};
ghost use Rattle.cox_klstep.specs.DescentBits.{AreDescentBits};
ghost use Rattle.cox_klstep.specs.ExtremalUpTo.{AreExtremalUpTo};
ghost use Rattle.cox_row_builder.specs.TargetOf.{IsTarget};
ghost use Rattle.cox_klstep.specs.LoweredTo.{AreLowered, IsLoweredBy};

use crate::descent_bits::DescentBits;
use crate::extremal::choose_extremal;
use crate::step::Step;
use cox_context::Context;
use cox_row::{Row, RowIndex, RowReader};
use cox_row_builder::Target;
use cox_row_symmetry::shift;
use std::alloc::{AllocError, Global};

/// The extremal members x <= w, rising by number, and the shorter members to which the step to w leads from them.
#[derive(Drop)]
pub struct Lowered {
    pub(crate) members: Vec<u32>,
    pub(crate) shorter: Vec<u32>,
    /// Which members are extremal, by bits; whatever they are is right.
    words: Vec<u64>,
    /// The extremal members up to w; whatever they are is right.
    candidates: Vec<u32>,
}

/// A member and the one to which the step leads from it.
#[derive(Clone, Copy)]
pub(crate) struct LoweredMember {
    pub(crate) member: u32,
    pub(crate) shorter: u32,
}

impl Lowered {
    /// No members.
    pub(crate) fn new(alloc: Global) -> Lowered {
        Lowered {
            members: Vec::new(alloc),
            shorter: Vec::new(alloc),
            words: Vec::new(alloc),
            candidates: Vec::new(alloc),
        }
    }

    /// Becomes those of a member and a step to it, in place of what there was. They are chosen by their descents, and by the row of the
    /// shorter element with its index.
    pub(crate) fn fill(
        &mut self,
        ctx: &Context,
        target: &Target,
        step: &Step,
        descents: &DescentBits,
        lower: &Row,
        index: &RowIndex,
    ) -> Result<(), AllocError>
        requires target { IsTarget ctx.now target.now }
        requires descents { AreDescentBits ctx.now descents.now }
        requires done { descents.now.done ≡ length ctx.now.members }
        requires step { IsRowStep ctx.now step.now }
        requires member { step.now.member ≡ target.now.member }
        requires lower { IsRowAt ctx.now step.now.lower lower.now }
        requires index { IsIndexOf (arc_value lower.now.values).extremal.items index.now }
        ensures { OnOk result (IsLoweredBy ctx.now target.now.member step.now self.new) }
    {
        choose_extremal(ctx, target, descents, &mut self.words, &mut self.candidates)?;
        lower_each(
            ctx,
            step,
            lower,
            index,
            &self.candidates,
            &mut self.members,
            &mut self.shorter,
        )
    }

    /// How many there are.
    pub(crate) fn len(&self) -> usize
        ensures { result ≡ length self.now.members.items }
    {
        self.members.len()
    }

    /// The one at a place.
    pub(crate) fn at(&self, k: usize) -> LoweredMember
        requires place { k < length self.now.members.items }
        requires size { length self.now.shorter.items ≡ length self.now.members.items }
        ensures member { result.member ≡ number_at self.now.members.items k }
        ensures shorter { result.shorter ≡ number_at self.now.shorter.items k }
    {
        LoweredMember {
            member: self.members[k],
            shorter: self.shorter[k],
        }
    }
}

/// Those of these members that are below the member of the step, and where the step leads from each, in place of what the lists had.
fn lower_each(
    ctx: &Context,
    step: &Step,
    lower: &Row,
    index: &RowIndex,
    candidates: &[u32],
    members: &mut Vec<u32>,
    shorter: &mut Vec<u32>,
) -> Result<(), AllocError>
    requires step { IsRowStep ctx.now step.now }
    requires lower { IsRowAt ctx.now step.now.lower lower.now }
    requires index { IsIndexOf (arc_value lower.now.values).extremal.items index.now }
    requires candidates { AreExtremalUpTo ctx.now step.now.member candidates.now }
    ensures members { OnOk result (AreExtremal (integer_matrix ctx.now.matrix) ctx.now.members (word_at ctx.now.members step.now.member)
        members.new.items) }
    ensures shorter { OnOk result (AreLowered ctx.now step.now.side step.now.letter members.new.items shorter.new.items) }
{
    let _len = ctx.len();
    members.clear();
    shorter.clear();
    // fast: made here, so that the compiler sees that there is an index
    let reader = RowReader::of(ctx, lower, Some(index), step.lower);
    for &x in candidates {
        match shift(ctx, step.side, step.letter, x) {
            Some(y) => {
                if reader.has(ctx, y) {
                    members.push(x)?;
                    shorter.push(y)?;
                }
            }
            None => unreachable!(),
        }
    }
    Ok(())
}
