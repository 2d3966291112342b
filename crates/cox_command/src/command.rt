//! Commands as values, and why a line gives none.
ghost use Rattle.std.specs.Prelude.{◌≡◌};
ghost use Rattle.cox_command.specs.RefusalNumber.{refusal_number};

use crate::{Inquiry, Refusal};
use cox_base::Coxeter;
use thiserror::Error;

/// What a line asks for.
#[derive(Drop)]
pub enum Command {
    /// A blank line: nothing.
    Nothing,
    /// `quit`: ends the run.
    Quit,
    /// `type` or `matrix`: sets the group.
    Group(Coxeter),
    /// `jobs`: opens a list of blocks.
    Jobs,
    /// A command on elements, or on the whole group.
    Ask(Inquiry),
}

/// Why `parse` refuses a line, and the number of that refusal.
#[derive(Clone, Copy, Debug, Drop, Error)]
#[error("error {number}")]
pub struct LineFault {
    /// The number of the refusal.
    pub number: u8,
    /// The refusal.
    pub refusal: Refusal,
    ghost numbered: { number ≡ refusal_number refusal },
}

impl LineFault {
    /// The fault of a refusal.
    pub(crate) fn of(refusal: Refusal) -> LineFault
        ensures { result.refusal ≡ refusal }
    {
        LineFault {
            number: refusal.number(),
            refusal,
        }
    }
}
