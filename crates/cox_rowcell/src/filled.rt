//! What shows that a cell was filled.
use crate::cell::RowCell;
use crate::held::Held;
use counted_slot::{Claim, PRESENT};
use cox_row::Row;
use std::marker::Model;
use std::snapshot::Snapshot;

/// What shows that the row of a cell was put into it. Contracts see the cell's tag. Only a call that puts the row there makes one.
#[derive(Drop)]
pub struct Filled {
    cell: Snapshot<RowCell>,
}

impl Model for Filled {
    ghost use Rattle.cox_rowcell.specs.Place.{Place};

    ghost Value = { Place };

    ghost view = { λ f. f.cell.value };
}

impl Filled {
    ghost use Rattle.std.specs.Prelude.{◌≡◌};
    ghost use Rattle.cox_rowcell.specs.RowFor.{IsRowFor};

    /// Ends a turn to write: the cell has the row from then on, and whoever comes may read it.
    pub(crate) fn put(cell: &RowCell, claim: Claim<'_, Held>, row: Row) -> Filled
        requires turn { claim.right ≡ 2 }
        requires tag { claim.tag ≡ cell.now }
        requires row { IsRowFor cell.now row }
        ensures { result ≡ cell.now }
    {
        claim.put(Held::Row(row), PRESENT);
        Filled {
            cell: Snapshot::of(cell),
        }
    }
}
