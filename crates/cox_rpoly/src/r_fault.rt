//! Why an R-polynomial is not given.
ghost use Rattle.std.specs.Prelude.{◌≡◌};
ghost use Rattle.cox_rpoly.specs.declared.r_fault.RFault.TheVariants.{NoMemory};

use std::alloc::AllocError;
use thiserror::Error;

/// Why an R-polynomial is not given.
#[derive(Clone, Copy, Debug, PartialEq, Eq, Error)]
pub enum RFault {
    /// The lengths of the two elements differ by so much, which is more than [`MAX_DIFFERENCE`](crate::MAX_DIFFERENCE).
    #[error("the lengths differ by {0}, which is more than {max}", max = crate::MAX_DIFFERENCE)]
    Deep(u32),
    /// Out of memory.
    #[error("out of memory")]
    NoMemory,
}

impl From<AllocError> for RFault {
    ghost from_gives = { λ _ e. e ≡ NoMemory };

    fn from(_: AllocError) -> RFault {
        RFault::NoMemory
    }
}
