//! The cells.
ghost use Rattle.std.specs.Prelude.{◌≡◌, ℕ, ◌<◌, length, All, IfOk};
ghost use Rattle.cox_base.specs.IntegerMatrix.{integer_matrix};
ghost use Rattle.cox_base.specs.Members.{IsElement};
ghost use Rattle.cox_base.specs.SortedList.{IsListOf};
ghost use Rattle.cox_cells.specs.Cells.{AreCells};
ghost use Rattle.cox_cells.specs.NumberedCells.{lists_of, words_of};

use crate::CellKind;
use crate::gathering::gather;
use crate::steps::steps;
use cox_context::Context;
use cox_row::LowerRows;
use cox_scc::classes;
use std::alloc::{AllocError, Global};

/// The cells of a finite group, from the rows of all its elements, which are the members of a context: for each cell the numbers of its
/// members, rising, and the cells by their first members. In time linear in the members and their values of mu.
///
/// In A 2 the left cells are 0, then 1 and 4, then 2 and 3, then 5: those of e, of 1 and 21, of 2 and 12, and of 121.
pub fn cells<L: LowerRows>(
    alloc: Global,
    context: &Context,
    rows: &L,
    kind: CellKind,
) -> Result<Vec<Vec<u32>>, AllocError>
    requires rows { L.elements rows.now ≡ context.now }
    requires held { (i : ℕ) → i < length context.now.members → L.holds rows.now i }
    ensures within { IfOk result (λ cells. All (All (λ i. i < length context.now.members)) (lists_of cells.items)) }
    ensures cells { IfOk result (λ cells. IsListOf (IsElement (integer_matrix context.now.matrix)) context.now.members
        → AreCells kind (integer_matrix context.now.matrix) (words_of context.now.members cells.items)) }
{
    let steps = steps(alloc, context, rows, kind)?;
    let classes = classes(alloc, &steps)?;
    gather(alloc, &classes)
}
