//! The row of the identity.
ghost use Rattle.std.specs.Prelude.{◌≡◌, ◌≤ℤ◌, pos, ℤ, Err, IfOk, IfErr};
ghost use Rattle.cox_base.specs.IntegerMatrix.{integer_matrix};
ghost use Rattle.cox_row.specs.RowOf.{IsRowAt};
ghost use Rattle.cox_row.specs.Within.{IsRowWithin};
ghost use Rattle.cox_row_builder.specs.Faults.{IsFault};

use crate::StepFault;
use cox_context::Context;
use cox_poly::{Poly, PolyList};
use cox_row::{Places, Row};
use std::alloc::{AllocError, Global};

/// The row of the identity, where coefficients are limited; its one coefficient is 1.
pub fn identity_row_within(alloc: Global, ctx: &Context, limit: i64) -> Result<Row, StepFault>
    requires limit { pos 0 ≤ℤ limit }
    ensures row { IfOk result (IsRowAt ctx.now 0) }
    ensures within { IfOk result (IsRowWithin limit) }
    ensures refused { limit ≡ pos 0 → result ≡ Err (StepFault.Coefficient 0 0 0 (pos 1)) }
    ensures fault { IfErr result (IsFault (integer_matrix ctx.now.matrix) ctx.now.members limit (λ w. w ≡ 0)) }
{
    let _len = ctx.len();
    if limit == 0 {
        return Err(StepFault::Coefficient {
            x: 0,
            w: 0,
            degree: 0,
            value: 1,
        });
    }
    let row = identity_row(alloc, ctx)?;
    Ok(row)
}

/// The row of the identity, which is the member 0: P(e,e) = 1, and no value of mu other than 0.
pub fn identity_row(alloc: Global, ctx: &Context) -> Result<Row, AllocError>
    ensures row { IfOk result (IsRowAt ctx.now 0) }
    ensures within { IfOk result (λ r. (limit : ℤ) → pos 1 ≤ℤ limit → IsRowWithin limit r) }
{
    let _len = ctx.len();
    let extremal = Vec::from_slice(alloc, &[0u32])?;
    let mut places = Places::new(alloc);
    places.push(0)?;
    let mut pool = PolyList::new(alloc);
    pool.push(&Poly::one(alloc)?.view())?;
    Ok(Row::own(
        alloc,
        extremal,
        places,
        pool,
        Vec::new(alloc),
        Vec::new(alloc),
    )?)
}
