//! Bruhat order: by heights, and where a sum overflows by the table.
ghost use Rattle.std.specs.Prelude.{◌↔◌, IsTrue};
ghost use Rattle.cox_base.specs.Matrix.{IsWord};
ghost use Rattle.cox_base.specs.IntegerMatrix.{integer_matrix};
ghost use Rattle.cox_base.specs.Bruhat.{IsBelow};

use crate::{RootTable, by_heights};
use cox_base::{MAX_RANK, Word};

impl RootTable {
    /// Whether y <= w in Bruhat order.
    pub fn below(&self, y: &Word, w: &Word) -> bool
        requires letters_y { IsWord self.now.rank y.now.items }
        requires letters_w { IsWord self.now.rank w.now.items }
        ensures { IsTrue result ↔ IsBelow (integer_matrix self.now) y.now.items w.now.items }
    {
        match by_heights::below(&self.group, y, w) {
            Some(answer) => answer,
            None => self.below_by_table(y, w),
        }
    }

    /// The same by the table.
    ///
    /// By lifting (Humphreys 5.9): with the reduced word s v of w, y <= w exactly where the shorter of y and s y is <= v.
    fn below_by_table(&self, y: &Word, w: &Word) -> bool
        requires letters_y { IsWord self.now.rank y.now.items }
        requires letters_w { IsWord self.now.rank w.now.items }
        ensures { IsTrue result ↔ IsBelow (integer_matrix self.now) y.now.items w.now.items }
    {
        prove!(self.group.rank() as usize <= MAX_RANK);
        let mut small = self.reduced_inverse(y);
        let mut large = self.reduced_inverse(w);
        while let Some(s) = large.pop() {
            if let Some(place) = self.exchanged(&small, s) {
                small.remove(place);
            }
        }
        small.is_empty()
    }
}
