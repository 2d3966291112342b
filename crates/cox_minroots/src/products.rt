//! Products by letters, by the table.
ghost use Rattle.std.specs.Prelude.{◌≡◌, ◌+◌, ◌<◌, ◌≤◌, [], ◌∷◌, ◌++◌, length, reverse, IfSome, IfNone};
ghost use Rattle.std.specs.List.{remove};
ghost use Rattle.cox_base.specs.Matrix.{IsLetter, IsWord};
ghost use Rattle.cox_base.specs.Admissible.{IsCoxeterMatrix};
ghost use Rattle.cox_base.specs.IntegerMatrix.{integer_matrix};
ghost use Rattle.cox_base.specs.Element.{SameElement};
ghost use Rattle.cox_base.specs.Reduced.{IsReduced};

use crate::RootTable;
use crate::moves::{NEGATIVE, OUT};
use cox_base::{MAX_LETTERS, MAX_RANK, Word};

impl RootTable {
    /// The place, from 0, of the letter of the reduced word w for which s is exchanged: w s is w without that letter. None if w s is a
    /// reduced word.
    ///
    /// For example in A 2 the letter 1 behind `12` gives the reduced word `121`, and the letter 2 behind `121` is exchanged for its first
    /// letter.
    pub fn exchanged(&self, w: &Word, s: u8) -> Option<usize>
        requires letters { IsWord self.now.rank w.now.items }
        requires letter { IsLetter self.now.rank s }
        requires reduced { IsReduced (integer_matrix self.now) w.now.items }
        ensures within { IfSome result (λ place. place < length w.now.items) }
        ensures without { IfSome result (λ place. SameElement (integer_matrix self.now) (w.now.items ++ s ∷ [])
            (remove w.now.items place)) }
        ensures longer { IfNone result (IsReduced (integer_matrix self.now) (w.now.items ++ s ∷ [])) }
        ensures matrix { IsCoxeterMatrix self.now }
    {
        prove!(self.group.rank() as usize <= MAX_RANK);
        let moves = self.moves.as_slice();
        let letters = w.as_slice();
        let mut root = s as usize - 1;
        for done in 0..letters.len() {
            let place = letters.len() - 1 - done;
            let letter = letters[place];
            let next = moves[MAX_RANK * root + (letter as usize - 1)];
            if next == NEGATIVE {
                return Some(place);
            }
            if next == OUT {
                return None;
            }
            root = next as usize;
        }
        None
    }

    /// Multiplies the element of a reduced word by s from the right; the new word is reduced.
    pub(crate) fn multiply(&self, w: &mut Word, s: u8)
        requires letters { IsWord self.now.rank w.old.items }
        requires letter { IsLetter self.now.rank s }
        requires reduced { IsReduced (integer_matrix self.now) w.old.items }
        requires room { length w.old.items < MAX_LETTERS }
        ensures same { SameElement (integer_matrix self.now) w.new.items (w.old.items ++ s ∷ []) }
        ensures reduced { IsReduced (integer_matrix self.now) w.new.items }
        ensures letters { IsWord self.now.rank w.new.items }
        ensures longer { length w.new.items ≤ length w.old.items + 1 }
    {
        match self.exchanged(w, s) {
            Some(place) => {
                w.remove(place);
            }
            None => w.push(s),
        }
    }

    /// A reduced word of the inverse of the element that w names.
    pub(crate) fn reduced_inverse(&self, w: &Word) -> Word
        requires { IsWord self.now.rank w.now.items }
        ensures same { SameElement (integer_matrix self.now) result.items (reverse w.now.items) }
        ensures reduced { IsReduced (integer_matrix self.now) result.items }
        ensures letters { IsWord self.now.rank result.items }
        ensures no_longer { length result.items ≤ length w.now.items }
        ensures matrix { IsCoxeterMatrix self.now }
    {
        prove!(self.group.rank() as usize <= MAX_RANK);
        prove!(w.len() <= MAX_LETTERS);
        let mut v = Word::new();
        for &s in w.as_slice().iter().rev() {
            self.multiply(&mut v, s);
        }
        v
    }
}
