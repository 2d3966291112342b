//! Why there are no values along a word.
ghost use Rattle.std.specs.Prelude.{◌≡◌};
ghost use Rattle.cox_rpoly.specs.declared.no_value.NoValue.TheVariants.{NoMemory};

use std::alloc::AllocError;

/// Why there are no values along a word.
#[derive(Clone, Copy)]
pub(crate) enum NoValue {
    /// A number of an element overflows.
    Overflow,
    /// Out of memory.
    NoMemory,
}

impl From<AllocError> for NoValue {
    ghost from_gives = { λ _ e. e ≡ NoMemory };

    fn from(_: AllocError) -> NoValue {
        NoValue::NoMemory
    }
}
