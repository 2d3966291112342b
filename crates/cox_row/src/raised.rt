//! Raising a member x by the descents of a member w: as long as some letter shortens w on a side and not x, it is put before or behind x.
ghost use Rattle.std.specs.Prelude.{◌≡◌, ℕ, List, ◌<◌, ◌↔◌, length, IfSome, IfNone, IsTrue};
ghost use Rattle.cox_base.specs.Admissible.{IsAdmissible};
ghost use Rattle.cox_base.specs.IntegerMatrix.{integer_matrix};
ghost use Rattle.cox_context.specs.Numbers.{word_at};
ghost use Rattle.cox_row.specs.Extremal.{IsExtremal};
ghost use Rattle.cox_row.specs.LetterSets.{IsSubset, IsMissing, AreLetters, AreLeftDescents, AreRightDescents};
ghost use Rattle.cox_row.specs.Raised.{raise_to, LeadsTo, IsRaisedFully};

use cox_context::Context;

/// Where raising by one letter leads.
#[derive(Clone, Copy)]
pub(crate) enum Raise {
    /// Nowhere, since the member is extremal.
    Done,
    /// To the member with this number.
    To(u32),
    /// To an element that is no member.
    Outside,
}

/// The extremal member to which x is raised by the descents of w, for the members w and x with the numbers i and x; `None` where x <= w
/// fails.
pub fn raise_fully(ctx: &Context, i: u32, x: u32) -> Option<u32>
    requires i { i < length ctx.now.members }
    requires x { x < length ctx.now.members }
    ensures { IsRaisedFully (integer_matrix ctx.now.matrix) ctx.now.members (word_at ctx.now.members i) (word_at ctx.now.members x) result }
{
    raise_by(ctx, i, ctx.left_descent_set(i), ctx.right_descent_set(i), x)
}

/// The same where the descents of w are known.
#[inline(always)]
pub(crate) fn raise_by(ctx: &Context, i: u32, left: u16, right: u16, x: u32) -> Option<u32>
    requires i { i < length ctx.now.members }
    requires x { x < length ctx.now.members }
    requires left { AreLeftDescents (integer_matrix ctx.now.matrix) (word_at ctx.now.members i) left }
    requires right { AreRightDescents (integer_matrix ctx.now.matrix) (word_at ctx.now.members i) right }
    ensures { IsRaisedFully (integer_matrix ctx.now.matrix) ctx.now.members (word_at ctx.now.members i) (word_at ctx.now.members x) result }
{
    let _len = ctx.len();
    let mut at = x;
    while at <= i {
        match raise_once(ctx, left, right, at) {
            Raise::Done => return Some(at),
            Raise::To(next) => at = next,
            Raise::Outside => return None,
        }
    }
    None
}

/// Whether the member x is extremal for the member w with the number i: each descent of w is one of x, on both sides.
pub(crate) fn is_extremal(ctx: &Context, i: u32, x: u32) -> bool
    requires i { i < length ctx.now.members }
    requires x { x < length ctx.now.members }
    ensures { IsTrue result ↔ IsExtremal (integer_matrix ctx.now.matrix) (word_at ctx.now.members i) (word_at ctx.now.members x) }
{
    let _len = ctx.len();
    is_subset(ctx.left_descent_set(i), ctx.left_descent_set(x))
        && is_subset(ctx.right_descent_set(i), ctx.right_descent_set(x))
}

/// Whether each letter of the one set is in the other.
pub fn is_subset(wanted: u16, present: u16) -> bool
    ensures { IsTrue result ↔ IsSubset wanted present }
{
    wanted & !present == 0
}

/// Where raising the member x by one letter leads, for a w with these descents.
#[inline(always)]
pub(crate) fn raise_once(ctx: &Context, left: u16, right: u16, x: u32) -> Raise
    requires admissible { IsAdmissible (integer_matrix ctx.now.matrix) }
    requires left { AreLetters ctx.now.matrix.rank left }
    requires right { AreLetters ctx.now.matrix.rank right }
    requires x { x < length ctx.now.members }
    ensures { (w : List ℕ) → AreLeftDescents (integer_matrix ctx.now.matrix) w left
        → AreRightDescents (integer_matrix ctx.now.matrix) w right
        → LeadsTo (integer_matrix ctx.now.matrix) ctx.now.members w (word_at ctx.now.members x) result }
{
    if let Some(s) = missing(left, ctx.left_descent_set(x)) {
        return raise_to(ctx.left(s, x));
    }
    if let Some(s) = missing(right, ctx.right_descent_set(x)) {
        return raise_to(ctx.right(s, x));
    }
    Raise::Done
}

/// Where a shift leads.
fn raise_to(shift: Option<u32>) -> Raise
    ensures { result ≡ raise_to shift }
{
    match shift {
        Some(k) => Raise::To(k),
        None => Raise::Outside,
    }
}

/// The least letter of a set of letters that is not present.
fn missing(wanted: u16, present: u16) -> Option<u8>
    ensures some { IfSome result (IsMissing wanted present) }
    ensures none { IfNone result (IsSubset wanted present) }
{
    let rest = wanted & !present;
    if rest == 0 {
        None
    } else {
        Some(rest.trailing_zeros() as u8 + 1)
    }
}
