//! Extremal members whose polynomials have a coefficient above the limit, and the fault that they give.
ghost use Rattle.std.specs.Prelude.{◌≡◌, ℕ, List, ◌+◌, ◌<◌, ℤ, length, [], OnOk, IfSome, IfNone, pos, ◌≤ℤ◌};
ghost use Rattle.cox_base.specs.IntegerMatrix.{IntegerMatrix, integer_matrix};
ghost use Rattle.cox_context.specs.Numbers.{word_at};
ghost use Rattle.cox_row.specs.Rising.{AreWithin};
ghost use Rattle.cox_row_builder.specs.Faults.{IsFault};
ghost use Rattle.cox_row_builder.specs.LargeMembers.{AreLarge, coefficient_at, fault_by, IsLeastLarge};

use crate::StepFault;
use cox_context::Context;
use cox_row::raise_fully;
use std::alloc::{AllocError, Global};

/// A coefficient that is above the limit in absolute value, the first one of its polynomial.
#[derive(Clone, Copy)]
pub(crate) struct LargeCoefficient {
    pub(crate) degree: u32,
    pub(crate) value: i128,
}

/// Extremal members so far whose polynomials have a coefficient above the limit, rising, each with the first such coefficient.
#[derive(Drop)]
pub(crate) struct LargeMembers {
    pub(crate) numbers: Vec<u32>,
    pub(crate) coefficients: Vec<LargeCoefficient>,
}

impl LargeMembers {
    /// No members.
    pub(crate) fn new(alloc: Global) -> LargeMembers
        ensures { (A : IntegerMatrix) → (members : List (List ℕ)) (w : List ℕ) (limit : ℤ)
            → AreLarge A members w limit 0 result.numbers.items result.coefficients.items }
    {
        LargeMembers {
            numbers: Vec::new(alloc),
            coefficients: Vec::new(alloc),
        }
    }

    /// One member more.
    pub(crate) fn note(&mut self, x: u32, coefficient: LargeCoefficient) -> Result<(), AllocError>
        ensures { OnOk result ((A : IntegerMatrix) → (members : List (List ℕ)) (w : List ℕ) (limit : ℤ)
            → AreLarge A members w limit x self.old.numbers.items self.old.coefficients.items
            → IsLeastLarge A limit (word_at members x) w coefficient.degree coefficient.value
            → AreLarge A members w limit (x + 1) self.new.numbers.items self.new.coefficients.items) }
    {
        self.numbers.push(x)?;
        self.coefficients.push(coefficient)?;
        Ok(())
    }

    /// The fault of the row of the member with the number i: at the first of all members, extremal or not, that has a coefficient above the
    /// limit. `None` where none has.
    ///
    /// Each member has the polynomial of the extremal one to which it is raised, so no polynomials are added up.
    pub(crate) fn fault(&self, ctx: &Context, i: u32) -> Option<StepFault>
        requires i { i < length ctx.now.members }
        requires within { AreWithin (i + 1) self.now.numbers.items }
        requires size { length self.now.coefficients.items ≡ length self.now.numbers.items }
        ensures some { IfSome result (λ fault. (limit : ℤ) → pos 0 ≤ℤ limit
            → AreLarge (integer_matrix ctx.now.matrix) ctx.now.members (word_at ctx.now.members i) limit (i + 1) self.now.numbers.items
            self.now.coefficients.items
            → IsFault (integer_matrix ctx.now.matrix) ctx.now.members limit (λ w. w ≡ i) fault) }
        ensures none { IfNone result (self.now.numbers.items ≡ []) }
    {
        let _len = ctx.len();
        if self.numbers.is_empty() {
            return None;
        }
        let first = self.numbers[0];
        for x in 0..first {
            if let Some(top) = raise_fully(ctx, i, x) {
                if let Ok(k) = self.numbers.binary_search(&top) {
                    return Some(self.fault_at(k, x, i));
                }
            }
        }
        Some(self.fault_at(0, first, i))
    }

    /// The fault of the row of the member w at a member x that has the polynomial of the one at the place k.
    fn fault_at(&self, k: usize, x: u32, w: u32) -> StepFault
        requires { k < length self.now.coefficients.items }
        ensures { result ≡ fault_by x w (coefficient_at self.now.coefficients.items k) }
    {
        let coefficient = self.coefficients[k];
        StepFault::Coefficient {
            x,
            w,
            degree: coefficient.degree,
            value: coefficient.value,
        }
    }
}
