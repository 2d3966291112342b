//! Why a row is not there.
ghost use Rattle.std.specs.Prelude.{◌≡◌};
ghost use Rattle.cox_row_builder.specs.declared.fault.StepFault.TheVariants.{NoMemory};
ghost use Rattle.cox_workers.specs.declared.missing.Missing.TheVariants.{Fault};

use cox_klstep::StepFault;
use std::alloc::AllocError;
use thiserror::Error;

/// Why a row is not there.
#[derive(Clone, Copy, Debug, PartialEq, Eq, Error)]
pub enum Missing {
    /// Another seat gave up the row of this member, which is needed.
    #[error("the row of member {0} was given up")]
    Void(u32),
    /// This seat gave up a row that is needed, for this reason.
    #[error("{0}")]
    Fault(StepFault),
}

impl From<StepFault> for Missing {
    ghost from_gives = { λ fault e. e ≡ Fault fault };

    fn from(fault: StepFault) -> Missing {
        Missing::Fault(fault)
    }
}

impl From<AllocError> for Missing {
    ghost from_gives = { λ _ e. e ≡ Fault NoMemory };

    fn from(_: AllocError) -> Missing {
        Missing::Fault(StepFault::NoMemory)
    }
}
