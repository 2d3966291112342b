//! The member w whose row is made: its descents, and the shifts sw and ws that are shorter.
ghost use Rattle.std.specs.Prelude.{◌≡◌, ◌<◌, length};
ghost use Rattle.cox_base.specs.IntegerMatrix.{integer_matrix};
ghost use Rattle.cox_row_builder.specs.TargetOf.{IsTarget, IsLeastShift, IsLeastOf};

use cox_context::Context;

/// A member w, with its descents as sets of letters.
#[derive(Clone, Copy)]
pub struct Target {
    /// The number of w.
    pub member: u32,
    /// The left descents of w: bit s - 1 is that of the letter s.
    pub left: u16,
    /// The right descents of w.
    pub right: u16,
}

impl Target {
    /// The member with the number i.
    pub fn of(ctx: &Context, i: u32) -> Target
        requires { i < length ctx.now.members }
        ensures number { result.member ≡ i }
        ensures target { IsTarget ctx.now result }
    {
        Target {
            member: i,
            left: ctx.left_descent_set(i),
            right: ctx.right_descent_set(i),
        }
    }
}

/// The least number from a given one on of a shift sw or ws that is shorter than w, for the member w with the number i; i where there is
/// none.
pub(crate) fn least_shift(ctx: &Context, i: u32, from: u32) -> u32
    requires { i < length ctx.now.members }
    ensures { IsLeastShift (integer_matrix ctx.now.matrix) ctx.now.members i from result }
{
    let _len = ctx.len();
    let mut least = i;
    let rank = ctx.matrix().rank() as u8;
    for s in 1..rank + 1 {
        least = lesser(ctx.left(s, i), from, least);
        least = lesser(ctx.right(s, i), from, least);
    }
    least
}

/// The number of a shift where it is one from a given number on and below the least one so far, else that.
fn lesser(shift: Option<u32>, from: u32, least: u32) -> u32
    ensures { IsLeastOf shift from least result }
{
    match shift {
        Some(k) if from <= k && k < least => k,
        _ => least,
    }
}
