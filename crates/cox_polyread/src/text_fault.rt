//! Why a text is not read as a polynomial.
ghost use Rattle.std.specs.Prelude.{◌≡◌};
ghost use Rattle.cox_polyread.specs.declared.text_fault.TextFault.TheVariants.{NoMemory};

use std::alloc::AllocError;
use thiserror::Error;

/// Why a text is not read as a polynomial.
#[derive(Clone, Copy, Debug, PartialEq, Eq, Error)]
pub enum TextFault {
    /// It is the text of no polynomial.
    #[error("this is no polynomial")]
    NotAPolynomial,
    /// It is that of a polynomial with a coefficient or a degree that is too large.
    #[error("a coefficient or a degree is too large")]
    TooLarge,
    /// Out of memory.
    #[error("out of memory")]
    NoMemory,
}

impl From<AllocError> for TextFault {
    ghost from_gives = { λ _ e. e ≡ NoMemory };

    fn from(_: AllocError) -> TextFault {
        TextFault::NoMemory
    }
}
