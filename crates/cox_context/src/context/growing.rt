//! Growth: the members below an element are added in place, behind the others.
ghost use Rattle.std.specs.Prelude.{◌≡◌, ℕ, List, Contains, ◌+◌, ◌<◌, ◌≤◌, ◌↔◌, ◌∷◌, ◌++◌, [], length, take, Some, IfOk, IfErr, OnOk};
ghost use Rattle.std.specs.Prelude.{OnErr};
ghost use Rattle.cox_base.specs.Matrix.{IsLetter, IsWord};
ghost use Rattle.cox_base.specs.IntegerMatrix.{integer_matrix};
ghost use Rattle.cox_base.specs.ShortLex.{normal_form};
ghost use Rattle.cox_base.specs.Members.{IsElement};
ghost use Rattle.cox_context.specs.Union.{IsInUnion};
ghost use Rattle.cox_context.specs.Spread.{AreKept};
ghost use Rattle.cox_context.specs.Appending.{IsTopWord, IsNextMember};
ghost use Rattle.cox_context.specs.Closed.{IsClosed};
ghost use Rattle.cox_context.specs.Numbers.{word_at};
ghost use Rattle.cox_context.specs.Numbering.{IsNumberOf};
ghost use Rattle.cox_context.specs.FaultMeaning.{IsRefusal, IsOverfull};

use crate::ContextFault;
use crate::appending::append_by_lists;
use crate::context::Context;
use crate::exchange::append_by_exchange;
use crate::inverses::cut_back_inverses;
use crate::members::MAX_MEMBERS;
use crate::shifts::cut_back;
use cox_base::Word;
use cox_minroots::RootTable;
use std::alloc::AllocError;

/// Where at most this many letters of an element are left, what is below it is appended by strong exchange.
const FEW_LETTERS: usize = 3;

impl Context {
    /// Adds the elements x with x <= w behind the members that are there, which keep their numbers.
    ///
    /// `Size` where there are more than `limit` members then. After a fault the context is unchanged. In A 3 the interval of `12` has four
    /// elements; with that of `21` there is a fifth, with the number 4.
    ///
    /// The tables grow in place. Where few letters of the normal form of w are left before its longest end that is a member, each new
    /// member takes time in proportion to the rank and to the square of its length. Else the elements below each end are gone through, and
    /// each member gets a mark.
    pub fn extend(&mut self, group: &RootTable, w: &Word, limit: u32) -> Result<(), ContextFault>
        requires matrix { group.now ≡ self.old.matrix }
        requires letters { IsWord group.now.rank w.now.items }
        requires some { 1 ≤ limit }
        requires limit { limit ≤ MAX_MEMBERS }
        ensures matrix { self.new.matrix ≡ self.old.matrix }
        ensures kept { AreKept self.old.members self.new.members }
        ensures members { OnOk result ((word : List ℕ) → Contains self.new.members word
            ↔ IsInUnion (integer_matrix group.now) w.now.items self.old.members word) }
        ensures few { OnOk result (length self.new.members ≤ limit) }
        ensures refused { IfErr result (IsRefusal (IsInUnion (integer_matrix group.now) w.now.items self.old.members) limit) }
        ensures unchanged { OnErr result (self.new ≡ self.old) }
    {
        let _letters = w.len();
        if self.len() > limit {
            return Err(ContextFault::Size {
                limit,
                seen: limit + 1,
            });
        }
        let form = group.normal_form(w);
        self.extend_to(&form, limit)?;
        Ok(())
    }

    /// Adds the elements below the element with this normal form, which `look_up` tells of one that is no member, and tells its number. All
    /// else is as in `extend`.
    pub fn extend_to(&mut self, form: &Word, limit: u32) -> Result<u32, ContextFault>
        requires form { IsElement (integer_matrix self.old.matrix) form.now.items }
        requires limit { limit ≤ MAX_MEMBERS }
        requires room { length self.old.members ≤ limit }
        ensures matrix { self.new.matrix ≡ self.old.matrix }
        ensures kept { AreKept self.old.members self.new.members }
        ensures members { OnOk result ((word : List ℕ) → Contains self.new.members word
            ↔ IsInUnion (integer_matrix self.old.matrix) form.now.items self.old.members word) }
        ensures few { OnOk result (length self.new.members ≤ limit) }
        ensures number { IfOk result (λ i. IsNumberOf self.new.members form.now.items (Some i)) }
        ensures refused { IfErr result
            (IsRefusal (IsInUnion (integer_matrix self.old.matrix) form.now.items self.old.members) limit) }
        ensures unchanged { OnErr result (self.new ≡ self.old) }
    {
        let _letters = form.len();
        let first = self.len();
        if let Err(fault) = self.append_below(form, limit) {
            self.cut_back(first);
            return Err(fault);
        }
        match self.number(form) {
            Some(i) => Ok(i),
            None => unreachable!(),
        }
    }

    /// Appends the elements below the element of a reduced word. After a fault some of them are there.
    fn append_below(&mut self, top: &Word, limit: u32) -> Result<(), ContextFault>
        requires top { IsTopWord self.old.matrix top.now.items }
        requires limit { limit ≤ MAX_MEMBERS }
        requires room { length self.old.members ≤ limit }
        ensures matrix { self.new.matrix ≡ self.old.matrix }
        ensures kept { AreKept self.old.members self.new.members }
        ensures members { OnOk result ((word : List ℕ) → Contains self.new.members word
            ↔ IsInUnion (integer_matrix self.old.matrix) top.now.items self.old.members word) }
        ensures few { length self.new.members ≤ limit }
        ensures refused { IfErr result (IsOverfull (IsInUnion (integer_matrix self.old.matrix) top.now.items self.old.members) limit) }
    {
        if self.letters_left(top) <= FEW_LETTERS {
            return append_by_exchange(self, top, limit);
        }
        let alloc = *self.listing.left.allocator();
        append_by_lists(alloc, self, top, limit)
    }

    /// How many letters of a reduced word are left before its longest end whose element is a member.
    fn letters_left(&self, top: &Word) -> usize
        requires top { IsTopWord self.now.matrix top.now.items }
        ensures { result ≤ length top.now.items }
    {
        prove!(self.len() > 0);
        let letters = top.len();
        let mut at = 0;
        for done in 0..letters {
            match self.left(top[letters - 1 - done], at) {
                Some(longer) => at = longer,
                None => return letters - done,
            }
        }
        0
    }

    /// Appends the member y = s x, for the member x with the number j, behind the others. After a fault all is as before.
    ///
    /// Room is made in each table first, so that no table grows where another can not. Narrow tables go, as they lack the new member.
    pub(crate) fn append(&mut self, s: u8, j: u32) -> Result<(), AllocError>
        requires letter { IsLetter self.old.matrix.rank s }
        requires member { j < length self.old.members }
        requires room { length self.old.members < MAX_MEMBERS }
        requires next { IsNextMember self.old.matrix self.old.members s j }
        ensures added { OnOk result (self.new ≡ record {
          matrix = self.old.matrix;
          members = self.old.members ++ normal_form (integer_matrix self.old.matrix) (s ∷ word_at self.old.members j) ∷ [];
        }) }
        ensures kept { OnErr result (self.new ≡ self.old) }
    {
        let rank = self.group.rank();
        let _len = self.listing.members.len();
        self.tables.reserve(rank)?;
        self.listing.append(&self.group, s, j)?;
        self.tables.push(&self.group, &self.listing);
        self.narrow_left.clear();
        self.narrow_right.clear();
        Ok(())
    }

    /// Only the first members, so many.
    fn cut_back(&mut self, count: u32)
        requires some { 1 ≤ count }
        requires within { count ≤ length self.old.members }
        requires closed { IsClosed (integer_matrix self.old.matrix) (take count self.old.members) }
        ensures { self.new ≡ record { matrix = self.old.matrix; members = take count self.old.members } }
    {
        if self.listing.members.len() == count {
            return;
        }
        let rank = self.group.rank();
        self.listing.cut_back(rank, count);
        cut_back(&mut self.tables.right, rank, count);
        cut_back_inverses(&mut self.tables.inverses, count);
        self.tables.left_descents.truncate(count as usize);
        self.tables.right_descents.truncate(count as usize);
        self.narrow_left.clear();
        self.narrow_right.clear();
    }
}
