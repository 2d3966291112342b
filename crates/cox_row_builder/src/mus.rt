//! The values of mu of a row that is being made.
ghost use Rattle.std.specs.Prelude.{◌≡◌, ℕ, List, ◌+◌, ◌<◌, ℤ, length, IfOk, OnOk};
ghost use Rattle.cox_base.specs.Admissible.{IsAdmissible};
ghost use Rattle.cox_base.specs.IntegerMatrix.{IntegerMatrix, integer_matrix};
ghost use Rattle.cox_poly.specs.Polynomial.{coefficient};
ghost use Rattle.cox_hecke.specs.Row.{IsKazhdanLusztig, IsMu};
ghost use Rattle.cox_context.specs.Numbers.{word_at};
ghost use Rattle.cox_row_builder.specs.Underway.{AreNoted};

use cox_context::Context;
use cox_poly::PolyView;
use std::alloc::{AllocError, Global};

/// Members so far for which mu is not 0, with its values.
#[derive(Drop)]
pub(crate) struct Mus {
    pub(crate) numbers: Vec<u32>,
    pub(crate) values: Vec<i64>,
}

impl Mus {
    /// No members, with room for so many.
    pub(crate) fn with_capacity(alloc: Global, count: usize) -> Result<Mus, AllocError>
        ensures { IfOk result (λ mus. (A : IntegerMatrix) → (members : List (List ℕ)) (w : List ℕ) (limit : ℤ)
            → AreNoted A members w limit 0 mus.numbers.items mus.values.items) }
    {
        Ok(Mus {
            numbers: Vec::with_capacity(alloc, count)?,
            values: Vec::with_capacity(alloc, count)?,
        })
    }

    /// One member more, with its value of mu, which may be 0.
    pub(crate) fn note(&mut self, x: u32, value: i64) -> Result<(), AllocError>
        ensures { OnOk result ((A : IntegerMatrix) → (members : List (List ℕ)) (w : List ℕ) (limit : ℤ) → IsAdmissible A
            → AreNoted A members w limit x self.old.numbers.items self.old.values.items
            → IsMu A (word_at members x) w value → AreNoted A members w limit (x + 1) self.new.numbers.items self.new.values.items) }
    {
        if value != 0 {
            self.numbers.push(x)?;
            self.values.push(value)?;
        }
        Ok(())
    }
}

/// mu(x,w), for the members w and x with the numbers i and x, where the polynomial is P(x,w).
pub(crate) fn middle(ctx: &Context, polynomial: &PolyView<'_>, i: u32, x: u32) -> i64
    requires i { i < length ctx.now.members }
    requires x { x < length ctx.now.members }
    ensures { IsKazhdanLusztig (integer_matrix ctx.now.matrix) (word_at ctx.now.members x) (word_at ctx.now.members i)
        (coefficient polynomial.now)
        → IsMu (integer_matrix ctx.now.matrix) (word_at ctx.now.members x) (word_at ctx.now.members i) result }
{
    let _len = ctx.len();
    let difference = ctx.length(i).saturating_sub(ctx.length(x));
    if difference % 2 == 1 {
        polynomial.coefficient(difference / 2)
    } else {
        0
    }
}
