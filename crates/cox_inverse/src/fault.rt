//! Why an inverse row is not made.
ghost use Rattle.std.specs.Prelude.{◌≡◌};
ghost use Rattle.cox_inverse.specs.declared.fault.InverseFault.TheVariants.{NoMemory};

use std::alloc::AllocError;
use thiserror::Error;

/// The greatest absolute value of a coefficient of P(x,z) that goes into an inverse row. A sum for a coefficient has at most 2^28 products
/// of two such, so it is within 2^122, and does not leave its 128 bits.
pub const MAX_COEFFICIENT: i64 = (1 << 47) - 1;

/// Why an inverse row of w from w down to y is not made.
#[derive(Clone, Copy, Debug, PartialEq, Eq, Error)]
pub enum InverseFault {
    /// A coefficient of P(x,z), where y <= x <= z <= w, is above [`MAX_COEFFICIENT`] in absolute value.
    #[error("the coefficient {value} at degree {degree} of member {x} in the row of member {z} is above the limit")]
    Coefficient {
        /// The number of x, the first member with such a coefficient for this z.
        x: u32,
        /// The number of z, the first member with such an x.
        z: u32,
        /// The least power of `q` with such a coefficient.
        degree: u32,
        /// The coefficient, with its sign.
        value: i64,
    },
    /// No coefficient of a P(x,z) is above `MAX_COEFFICIENT`, but one of Q(x,w), where y <= x <= w, is above the limit in absolute value.
    #[error("the coefficient {value} at degree {degree} of member {x} in the inverse row is above the limit")]
    Inverse {
        /// The number of x, the last member with such a coefficient.
        x: u32,
        /// The least power of `q` with such a coefficient.
        degree: u32,
        /// The coefficient, with its sign.
        value: i128,
    },
    /// Out of memory.
    #[error("out of memory")]
    NoMemory,
}

impl From<AllocError> for InverseFault {
    ghost from_gives = { λ _ e. e ≡ NoMemory };

    fn from(_: AllocError) -> InverseFault {
        InverseFault::NoMemory
    }
}
