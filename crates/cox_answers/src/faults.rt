//! What faults lead to: a refusal, or that memory ran out.
ghost use Rattle.std.specs.Prelude.{◌≡◌};
ghost use Rattle.cox_answers.specs.Faults.{unanswered_by, unless_fault, is_no_memory, ran_out, inverse_unanswered};

use cox_command::Refusal;
use cox_inverse::InverseFault;
use cox_klstep::StepFault;
use cox_replies::Unanswered;

/// What a fault of rows leads to: a row is refused, or memory ran out.
fn unanswered_by(fault: StepFault) -> Unanswered
    ensures { result ≡ unanswered_by fault }
{
    match fault {
        StepFault::Coefficient { .. } | StepFault::Mu { .. } => {
            Unanswered::Refused(Refusal::LargeRow)
        }
        StepFault::NoMemory => Unanswered::NoMemory,
    }
}

/// A value, unless there was a fault of rows.
pub fn unless_fault<X: Copy>(made: Result<(), StepFault>, value: X) -> Result<X, Unanswered>
    ensures { result ≡ unless_fault made value }
{
    match made {
        Ok(()) => Ok(value),
        Err(fault) => Err(unanswered_by(fault)),
    }
}

/// Whether memory ran out, and no row is refused.
fn is_no_memory(fault: StepFault) -> bool
    ensures { result ≡ is_no_memory fault }
{
    match fault {
        StepFault::Coefficient { .. } | StepFault::Mu { .. } => false,
        StepFault::NoMemory => true,
    }
}

/// Whether memory ran out while rows were made.
pub fn ran_out(made: Result<(), StepFault>) -> bool
    ensures { result ≡ ran_out made }
{
    match made {
        Ok(()) => false,
        Err(fault) => is_no_memory(fault),
    }
}

/// What a fault of inverse polynomials leads to: one of them is refused, or memory ran out.
pub fn inverse_unanswered(fault: InverseFault) -> Unanswered
    ensures { result ≡ inverse_unanswered fault }
{
    match fault {
        InverseFault::Coefficient { .. } | InverseFault::Inverse { .. } => {
            Unanswered::Refused(Refusal::LargeRow)
        }
        InverseFault::NoMemory => Unanswered::NoMemory,
    }
}
