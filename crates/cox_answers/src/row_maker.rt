//! What makes rows that are asked for.
ghost use Rattle.std.specs.Prelude.{length, IfOk};
ghost use Rattle.cox_row.specs.Rising.{AreWithin};
ghost use Rattle.cox_answers.specs.Kept.{IsMore};

use crate::workspace::Workspace;
use cox_rows::Rows;
use std::alloc::{AllocError, Global};

/// Makes rows of members that will be asked for. No answer depends on it.
pub trait RowMaker {
    /// When it may be used.
    ghost ready: { Self → Type 0 };

    /// The same rows, and maybe more: those of the members with these numbers, and those that they are made from.
    fn make(&self, alloc: Global, rows: Rows, wanted: &[u32]) -> Rows
        requires ready { ready self.now }
        requires members { AreWithin (length rows.elements.members) wanted.now }
        ensures { IsMore rows result };

    /// A workspace that others read too, whose rows may give an answer before any is made; `None` where there is none.
    fn shared(&self) -> Option<&Workspace>;
}

/// Makes no row: whoever asks makes what is missing, by one thread.
#[derive(Clone, Copy, Drop)]
pub struct OneThread;

impl RowMaker for OneThread {
    ghost ready = { λ _. Unit {0} };

    fn make(&self, alloc: Global, rows: Rows, wanted: &[u32]) -> Rows {
        let _ = alloc;
        let _ = wanted;
        rows
    }

    fn shared(&self) -> Option<&Workspace> {
        None
    }
}

/// The same rows, and maybe more: those of the members with these numbers are asked for, unless all of them are there.
pub fn with_rows<M: RowMaker>(alloc: Global, rows: Rows, maker: &M, numbers: &[u32]) -> Rows
    requires members { AreWithin (length rows.elements.members) numbers.now }
    requires ready { M.ready maker.now }
    ensures { IsMore rows result }
{
    if numbers.iter().all(|z| rows.has(*z)) {
        return rows;
    }
    maker.make(alloc, rows, numbers)
}

/// The same rows, and maybe more: all rows that are missing are asked for, if there is memory for the numbers of their members.
pub fn with_all<M: RowMaker>(alloc: Global, rows: Rows, maker: &M) -> Rows
    requires { M.ready maker.now }
    ensures { IsMore rows result }
{
    let Ok(missing) = missing_members(alloc, &rows) else {
        return rows;
    };
    with_rows(alloc, rows, maker, missing.as_slice())
}

/// The numbers of the members whose rows are not there.
fn missing_members(alloc: Global, rows: &Rows) -> Result<Vec<u32>, AllocError>
    ensures { IfOk result (λ missing. AreWithin (length rows.now.elements.members) missing.items) }
{
    let mut missing = Vec::new(alloc);
    for i in 0..rows.context().len() {
        if !rows.has(i) {
            missing.push(i)?;
        }
    }
    Ok(missing)
}
