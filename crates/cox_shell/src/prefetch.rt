//! What the lines of blocks will ask for, so that its rows are made before, and how threads read those rows.
ghost use Rattle.std.specs.Prelude.{All, IfOk, IfSome};
ghost use Rattle.cox_command.specs.ParseContract.{HasLetters};

use crate::block_line::{BlockLine, copy_inquiry};
use crate::list::{Block, KeptLine};
use cox_answers::{RowMaker, Workspace};
use cox_command::Inquiry;
use cox_rows::Rows;
use std::alloc::{AllocError, Global};

/// The row maker of a thread that answers blocks. It makes no rows, and lends the workspace of the session whose list is answered. What
/// that does not give, the thread's own session makes.
#[derive(Clone, Copy, Drop)]
pub struct SharedRows<'a> {
    /// The workspace of that session, if a group is set.
    pub workspace: Option<&'a Workspace>,
}

impl RowMaker for SharedRows<'_> {
    ghost ready = { λ _. Unit {0} };

    fn make(&self, alloc: Global, rows: Rows, wanted: &[u32]) -> Rows {
        let _ = alloc;
        let _ = wanted;
        rows
    }

    fn shared(&self) -> Option<&Workspace> {
        self.workspace
    }
}

/// The commands on elements, or on the whole group, that the lines of these blocks give, which were read where the group has this rank.
pub fn inquiries_of(alloc: Global, blocks: &[Block], rank: u32) -> Result<Vec<Inquiry>, AllocError>
    ensures { IfOk result (λ inquiries. All (HasLetters rank) inquiries.items) }
{
    let mut inquiries = Vec::new(alloc);
    'each: for block in blocks {
        'lines: for line in block.lines() {
            if let Some(inquiry) = inquiry_of(line, rank) {
                inquiries.push(inquiry)?;
            }
        }
    }
    Ok(inquiries)
}

/// The command on elements, or on the whole group, that a line gives, if it was read where the group has this rank, and gives one.
fn inquiry_of(line: &KeptLine, rank: u32) -> Option<Inquiry>
    ensures { IfSome result (λ inquiry. HasLetters rank inquiry) }
{
    match line.gives(Some(rank)) {
        Some(BlockLine::Ask(inquiry)) => Some(copy_inquiry(inquiry)),
        _ => None,
    }
}
