//! Why a sum is not given as a polynomial.
ghost use Rattle.std.specs.Prelude.{◌≡◌};
ghost use Rattle.cox_poly.specs.declared.poly_fault.PolyFault.TheVariants.{NoMemory};

use std::alloc::AllocError;
use thiserror::Error;

/// Why a sum is not given as a polynomial.
#[derive(Clone, Copy, Debug, PartialEq, Eq, Error)]
pub enum PolyFault {
    /// The coefficient of this degree is above the limit in absolute value, and none of a lower
    /// degree is.
    #[error("the coefficient {value} at degree {degree} is above the limit")]
    TooBig {
        /// The power of `q`.
        degree: u32,
        /// The coefficient, with its sign.
        value: i128,
    },
    /// Out of memory.
    #[error("out of memory")]
    NoMemory,
}

impl From<AllocError> for PolyFault {
    ghost from_gives = { λ _ e. e ≡ NoMemory };

    fn from(_: AllocError) -> PolyFault {
        PolyFault::NoMemory
    }
}
