//! What a cell holds.
use crate::tag::Tag;
use counted_slot::Fits;
use cox_row::Row;

/// What a cell holds: nothing, as long as it is empty, or a row.
#[derive(Drop)]
pub(crate) enum Held {
    Nothing(Vacancy),
    Row(Row),
}

impl Fits for Held {
    ghost use Rattle.cox_rowcell.specs.InCell.{FitsPlace};

    type Tag = Tag;

    ghost fits = { FitsPlace };
}

impl Held {
    ghost use Rattle.std.specs.Prelude.{IsTrue};
    ghost use Rattle.cox_rowcell.specs.InCell.{IsRowHeld};

    /// Whether it is a row.
    pub(crate) fn is_row(&self) -> bool
        ensures { IsTrue result → IsRowHeld self.now }
    {
        matches!(self, Held::Row(_))
    }
}

/// That a cell is empty. One is made from a tag, and so with a cell: a cell that was filled cannot be left without its row.
#[derive(Drop)]
pub(crate) struct Vacancy {
    made: (),
}

impl Vacancy {
    /// Of a new cell with this tag.
    pub(crate) fn of(tag: &Tag) -> Vacancy {
        let _ = tag;
        Vacancy { made: () }
    }
}
