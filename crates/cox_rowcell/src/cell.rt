//! A cell for the row of one member.
ghost use Rattle.std.specs.Prelude.{◌≡◌, ◌<◌, ◌+◌, ◌-◌, ◌%◌, ◌^◌, IsTrue, IsSomeAnd, IfSome};
ghost use Rattle.counted_slot.specs.Counting.{readers};
ghost use Rattle.cox_rowcell.specs.InCell.{IsRowHeld};
ghost use Rattle.cox_rowcell.specs.RowFor.{IsRowFor};

use crate::filled::Filled;
use crate::held::{Held, Vacancy};
use crate::tag::Tag;
use counted_slot::{Claim, Counted, FREE, MOST_READERS, ONE_READER, PRESENT, TAKEN};
use cox_row::Row;
use std::marker::Model;
use std::ops::Deref;
use std::sync::Wait;
use std::thread;

/// A cell for the row of one member of a context. Contracts see its tag.
#[derive(Drop)]
pub struct RowCell {
    slot: Counted<Held>,
}

impl Model for RowCell {
    ghost use Rattle.cox_rowcell.specs.Place.{Place};

    ghost Value = { Place };

    ghost view = { λ c. c.slot };
}

impl RowCell {
    ghost use Rattle.cox_rowcell.specs.Guards.{place_of_guard};

    /// An empty cell for the row of the tag.
    pub fn new(tag: &Tag) -> RowCell
        ensures { result ≡ tag.now }
    {
        RowCell {
            slot: Counted::new(Held::Nothing(Vacancy::of(tag)), tag),
        }
    }

    /// Puts the row of the tag into the cell, and gives what shows it. It waits while the cell is not empty, so it never returns for a cell
    /// that was filled.
    pub fn fill<R: Wait>(&self, rt: &R, row: Row) -> Filled
        requires { IsRowFor self.now row }
        ensures { result ≡ self.now }
    {
        let claim = self.turn_to_write(rt);
        Filled::put(self, claim, row)
    }

    /// The turn to write into the cell, once it is empty.
    fn turn_to_write<R: Wait>(&self, rt: &R) -> Claim<'_, Held>
        ensures turn { result.right ≡ 2 }
        ensures tag { result.tag ≡ self.now }
    {
        for _ in rt.forever() {
            let (found, claim) = self.slot.turn(FREE, TAKEN);
            if found == FREE {
                return claim;
            }
            claim.done();
            thread::yield_now();
        }
        unreachable!()
    }

    /// Lends the row, without a copy, until the guard is let go. It waits until there is one.
    pub fn read<R: Wait>(&self, rt: &R) -> RowGuard<'_>
        ensures { place_of_guard result ≡ self.now }
    {
        for _ in rt.forever() {
            if let Some(guard) = self.try_read() {
                return guard;
            }
            thread::yield_now();
        }
        unreachable!()
    }

    /// The row, if the cell has one and no other thread came in between.
    fn try_read(&self) -> Option<RowGuard<'_>>
        ensures { IfSome result (λ guard. place_of_guard guard ≡ self.now) }
    {
        let seen = self.slot.load();
        if !can_be_read(seen) {
            return None;
        }
        let (found, claim) = self.slot.turn(seen, seen + ONE_READER);
        if found != seen {
            claim.done();
            return None;
        }
        if !claim.get().is_row() {
            claim.leave();
            return None;
        }
        Some(RowGuard { claim })
    }

    /// The row, taken out of the cell. It never returns for a cell that was not filled.
    pub fn into_row<R: Wait>(self, rt: &R) -> Row
        ensures { IsRowFor self result }
    {
        match self.slot.into_inner() {
            Held::Row(row) => row,
            Held::Nothing(_) => {
                for _ in rt.forever() {}
                unreachable!()
            }
        }
    }
}

/// Whether a cell with this word has a row, and one reader more may come.
fn can_be_read(word: u64) -> bool
    ensures only { IsTrue result → (word % 4 ≡ 1) × (readers word < 2 ^ 30 - 1) × (word + 4 < 2 ^ 64) }
    ensures always { (word % 4 ≡ 1) → (readers word < 2 ^ 30 - 1) → IsTrue result }
{
    word % ONE_READER == PRESENT && word % 0x1_0000_0000 / ONE_READER < MOST_READERS
}

/// Lends the row of a cell, until it is let go.
pub struct RowGuard<'a> {
    pub(crate) claim: Claim<'a, Held>,
    ghost reads: { claim.right ≡ 1 },
    ghost filled: { ∥ IsSomeAnd claim.value IsRowHeld ∥₁ },
}

impl<'a> RowGuard<'a> {
    ghost use Rattle.cox_rowcell.specs.Guards.{place_of_guard};

    /// The row.
    pub fn row(&self) -> &Row
        ensures { IsRowFor (place_of_guard self.now) result.now }
    {
        match self.claim.get() {
            Held::Row(row) => row,
            Held::Nothing(_) => unreachable!(),
        }
    }
}

impl<'a> Drop for RowGuard<'a> {
    fn drop(self) {
        let RowGuard { claim } = self;
        claim.leave();
    }
}
