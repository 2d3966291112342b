//! The members between two of a context.
ghost use Rattle.std.specs.Prelude.{◌≡◌, ◌<◌, length, IfOk};
ghost use Rattle.cox_inverse.specs.Intervals.{IsInterval};

use cox_context::Context;
use std::alloc::{AllocError, Global};

/// The members z with y <= z <= w, for a bottom y and a top w.
#[derive(Drop)]
pub struct Interval {
    /// The number of y.
    pub bottom: u32,
    /// The number of w.
    pub top: u32,
    /// Their numbers, rising.
    pub members: Vec<u32>,
}

impl Interval {
    /// The members between the one with the number y and the one with the number w.
    pub fn between(alloc: Global, ctx: &Context, y: u32, w: u32) -> Result<Interval, AllocError>
        requires bottom { y < length ctx.now.members }
        requires top { w < length ctx.now.members }
        ensures interval { IfOk result (IsInterval ctx.now) }
        ensures bottom { IfOk result (λ interval. interval.bottom ≡ y) }
        ensures top { IfOk result (λ interval. interval.top ≡ w) }
    {
        let _len = ctx.len();
        let mut members = Vec::new(alloc);
        for z in y..w + 1 {
            if ctx.below(y, z) && ctx.below(z, w) {
                members.push(z)?;
            }
        }
        Ok(Interval {
            bottom: y,
            top: w,
            members,
        })
    }
}
