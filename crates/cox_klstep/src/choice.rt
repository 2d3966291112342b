//! Chooses the step by which the row of a member is made.
ghost use Rattle.std.specs.Prelude.{◌≡◌, ℕ, ◌<◌, ◌≤◌, ◌↔◌, List, length, IfOk, IfSome, IfNone, IsTrue};
ghost use Rattle.cox_base.specs.declared.side.Side.{Side};
ghost use Rattle.cox_base.specs.Matrix.{IsLetter};
ghost use Rattle.cox_base.specs.IntegerMatrix.{integer_matrix};
ghost use Rattle.cox_reflect.specs.LeastDescent.{IsLeastLeftDescent};
ghost use Rattle.cox_context.specs.Numbers.{word_at};
ghost use Rattle.cox_row.specs.RowOf.{IsRowAt};
ghost use Rattle.cox_row_symmetry.specs.DescentOf.{IsLowering};
ghost use Rattle.cox_klstep.specs.StepOf.{AreNumbered, correction_at, IsRowStep};
ghost use Rattle.cox_klstep.specs.NeedsOf.{HasNeeds, AreNeeds};
ghost use Rattle.cox_klstep.specs.ChoiceOf.{HasCorrections, HasNoFewer, IsChoice};
ghost use Rattle.cox_klstep.specs.declared.step.Correction.{Correction};

use crate::step::{Correction, Step};
use cox_base::Side;
use cox_context::Context;
use cox_row::{LowerRows, Row};
use cox_row_symmetry::{Descent, shift, shortens};
use std::alloc::{AllocError, Global};

/// A step to a member, and how many corrections it has.
#[derive(Clone, Copy)]
struct Choice {
    side: Side,
    descent: Descent,
    corrections: usize,
}

/// The step to the member with the number i. Of the steps by its descents on both sides whose rows are at hand, the one with the fewest
/// corrections is taken. Ties go to the first: to the step by the least left descent, and then to the least letter, on the left before the
/// right.
pub(crate) fn step_with_fewest_corrections<L: LowerRows>(
    alloc: Global,
    ctx: &Context,
    i: u32,
    lower: &L,
) -> Result<Step, AllocError>
    requires member { i < length ctx.now.members }
    requires some { 0 < i }
    requires lower { L.elements lower.now ≡ ctx.now }
    requires needs { HasNeeds ctx.now (L.holds lower.now) i }
    ensures member { IfOk result (λ step. step.member ≡ i) }
    ensures step { IfOk result (IsRowStep ctx.now) }
    ensures lower { IfOk result (λ step. L.holds lower.now step.lower) }
    ensures corrected { IfOk result (λ step. (k : ℕ) → k < length step.corrections.items
        → L.holds lower.now (correction_at step.corrections.items k).number) }
    ensures few { IfOk result (λ step. (s : ℕ) (numbers : List ℕ)
        → IsLeastLeftDescent (integer_matrix ctx.now.matrix) (word_at ctx.now.members i) s
        → AreNeeds (integer_matrix ctx.now.matrix) ctx.now.members s (word_at ctx.now.members i) numbers
        → length step.corrections.items ≤ length numbers) }
    ensures fewest { IfOk result (λ step. (side : Side) (s : ℕ)
        → HasNoFewer ctx.now (L.holds lower.now) i (length step.corrections.items) side s) }
{
    let _len = ctx.len();
    let least = Descent::of(ctx, i);
    let first = Step::of(alloc, ctx, Side::Left, &least, lower.row(least.lower))?;
    let start = Choice {
        side: Side::Left,
        descent: least,
        corrections: first.corrections.len(),
    };
    if start.corrections == 0 {
        return Ok(first);
    }
    let best = with_fewest_corrections(ctx, lower, &start);
    if best.corrections == start.corrections {
        return Ok(first);
    }
    let shorter = lower.row(best.descent.lower);
    let step = Step::of(alloc, ctx, best.side, &best.descent, shorter)?;
    Ok(step)
}

/// The choice with the fewest corrections; the one to start from where none has fewer.
fn with_fewest_corrections<L: LowerRows>(ctx: &Context, lower: &L, start: &Choice) -> Choice
    requires lower { L.elements lower.now ≡ ctx.now }
    requires start { IsChoice ctx.now (L.holds lower.now) start.now.descent.member start.now.side start.now.descent start.now.corrections }
    ensures choice { IsChoice ctx.now (L.holds lower.now) start.now.descent.member result.side result.descent result.corrections }
    ensures fewest { (side : Side) (s : ℕ) → HasNoFewer ctx.now (L.holds lower.now) start.now.descent.member result.corrections side s }
{
    let _len = ctx.len();
    let rank = ctx.matrix().rank() as u8;
    let mut best = *start;
    for s in 1..rank + 1 {
        best = with_fewer_corrections(ctx, start.descent.member, Side::Left, s, lower, &best);
        best = with_fewer_corrections(ctx, start.descent.member, Side::Right, s, lower, &best);
    }
    best
}

/// The step by a letter on a side where it has fewer corrections than the best one so far, else that.
fn with_fewer_corrections<L: LowerRows>(
    ctx: &Context,
    i: u32,
    side: Side,
    s: u8,
    lower: &L,
    best: &Choice,
) -> Choice
    requires i { i < length ctx.now.members }
    requires letter { IsLetter ctx.now.matrix.rank s }
    requires lower { L.elements lower.now ≡ ctx.now }
    requires best { IsChoice ctx.now (L.holds lower.now) i best.now.side best.now.descent best.now.corrections }
    ensures choice { IsChoice ctx.now (L.holds lower.now) i result.side result.descent result.corrections }
    ensures no_more { result.corrections ≤ best.now.corrections }
    ensures fewest { HasNoFewer ctx.now (L.holds lower.now) i result.corrections side s }
{
    let _len = ctx.len();
    if !shortens(ctx, side, s, i) {
        return *best;
    }
    let Some(shorter) = shift(ctx, side, s, i) else {
        return *best;
    };
    if !lower.has(shorter) {
        return *best;
    }
    let descent = Descent {
        member: i,
        letter: s,
        lower: shorter,
    };
    match count_at_hand(ctx, side, &descent, lower, best.corrections) {
        Some(corrections) => Choice {
            side,
            descent,
            corrections,
        },
        None => *best,
    }
}

/// How many corrections a step has, if they are fewer than a bound and their rows are there.
fn count_at_hand<L: LowerRows>(
    ctx: &Context,
    side: Side,
    descent: &Descent,
    lower: &L,
    bound: usize,
) -> Option<usize>
    requires lower { L.elements lower.now ≡ ctx.now }
    requires descent { IsLowering ctx.now side descent.now }
    requires there { L.holds lower.now descent.now.lower }
    ensures choice { IfSome result (IsChoice ctx.now (L.holds lower.now) descent.now.member side descent.now) }
    ensures fewer { IfSome result (λ count. count < bound) }
    ensures none { IfNone result (HasNoFewer ctx.now (L.holds lower.now) descent.now.member bound side descent.now.letter) }
{
    let row = lower.row(descent.lower);
    let count = correction_count(ctx, side, descent, row, bound)?;
    if has_corrections(ctx, side, descent, row, lower) {
        Some(count)
    } else {
        None
    }
}

/// How many corrections a step has; `None` exactly where they are not fewer than a bound. It looks at no other row, since most steps are
/// out of the question by their counts.
pub fn correction_count(
    ctx: &Context,
    side: Side,
    descent: &Descent,
    row: &Row,
    bound: usize,
) -> Option<usize>
    requires descent { IsLowering ctx.now side descent.now }
    requires row { IsRowAt ctx.now descent.now.lower row.now }
    ensures count { IfSome result (λ count. (list : List Correction)
        → AreNumbered side (integer_matrix ctx.now.matrix) ctx.now.members descent.now.letter
        (word_at ctx.now.members descent.now.member) list
        → count ≡ length list) }
    ensures fewer { IfSome result (λ count. count < bound) }
    ensures none { IfNone result ((list : List Correction)
        → AreNumbered side (integer_matrix ctx.now.matrix) ctx.now.members descent.now.letter
        (word_at ctx.now.members descent.now.member) list
        → bound ≤ length list) }
{
    let _len = ctx.len();
    if bound == 0 {
        return None;
    }
    let mut count = 0;
    for &u in row.neighbours().iter() {
        if shortens(ctx, side, descent.letter, u) {
            count += 1;
            if count == bound {
                return None;
            }
        }
    }
    Some(count)
}

/// Whether the rows of the corrections of a step are there.
fn has_corrections<L: LowerRows>(
    ctx: &Context,
    side: Side,
    descent: &Descent,
    row: &Row,
    lower: &L,
) -> bool
    requires lower { L.elements lower.now ≡ ctx.now }
    requires descent { IsLowering ctx.now side descent.now }
    requires row { IsRowAt ctx.now descent.now.lower row.now }
    ensures { IsTrue result ↔ HasCorrections ctx.now (L.holds lower.now) descent.now.member side descent.now.letter }
{
    let _len = ctx.len();
    for &u in row.neighbours().iter() {
        if shortens(ctx, side, descent.letter, u) {
            if !lower.has(u) {
                return false;
            }
        }
    }
    true
}
