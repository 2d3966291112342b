//! Why a command gets no answer.
ghost use Rattle.std.specs.Prelude.{◌≡◌};
ghost use Rattle.cox_replies.specs.Putting.{unrefused};
ghost use Rattle.cox_replies.specs.declared.unanswered.Unanswered.TheVariants.{NoMemory};

use cox_command::Refusal;
use std::alloc::AllocError;

/// Why a command got no answer.
#[derive(Clone, Copy, Debug, PartialEq, Eq)]
pub enum Unanswered {
    /// It is refused.
    Refused(Refusal),
    /// Memory ran out; a prefix of the answer was put.
    NoMemory,
}

impl From<AllocError> for Unanswered {
    ghost from_gives = { λ _ e. e ≡ NoMemory };

    fn from(_: AllocError) -> Unanswered {
        Unanswered::NoMemory
    }
}

/// What became of a text that nothing refuses.
pub fn unrefused(put: Result<(), AllocError>) -> Result<(), Unanswered>
    ensures { result ≡ unrefused put }
{
    match put {
        Ok(()) => Ok(()),
        Err(_) => Err(Unanswered::NoMemory),
    }
}
