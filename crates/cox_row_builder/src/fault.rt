//! Why a row is not made.
ghost use Rattle.std.specs.Prelude.{◌≡◌};
ghost use Rattle.cox_row_builder.specs.declared.fault.StepFault.TheVariants.{NoMemory};

use std::alloc::AllocError;
use thiserror::Error;

/// Why a row is not made: the row of a member w is beyond a limit, or memory ran out.
#[derive(Clone, Copy, Debug, PartialEq, Eq, Error)]
pub enum StepFault {
    /// A coefficient of P(x,w) is above the limit in absolute value.
    #[error("the coefficient {value} at degree {degree} of member {x} in the row of member {w} is above the limit")]
    Coefficient {
        /// The number of x, the first member with such a coefficient.
        x: u32,
        /// The number of w.
        w: u32,
        /// The least power of `q` with such a coefficient.
        degree: u32,
        /// The coefficient, with its sign.
        value: i128,
    },
    /// No coefficient of the row of w is above the limit, but mu(x,w) is above [`MU_LIMIT`](cox_row::MU_LIMIT) in absolute value.
    #[error("the value {value} of mu at member {x} in the row of member {w} is above the limit")]
    Mu {
        /// The number of x, the first with such a value.
        x: u32,
        /// The number of w.
        w: u32,
        /// The value of mu, with its sign.
        value: i64,
    },
    /// Out of memory.
    #[error("out of memory")]
    NoMemory,
}

impl From<AllocError> for StepFault {
    ghost from_gives = { λ _ e. e ≡ NoMemory };

    fn from(_: AllocError) -> StepFault {
        StepFault::NoMemory
    }
}
