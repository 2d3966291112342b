//! Finds the members of a context, length by length, with their left shifts.
//!
//! The members with one letter more are the s x for s = 1, 2, .. and, for each s, the members x of the last length in order, where s is the
//! least left descent of s x. So each is found once, and they come in ShortLex order. A shift is noted as soon as the longer of its two
//! members is found: where s leads from x to a member already, s x is shorter than x or was found from a lesser letter.
ghost use Rattle.std.specs.Prelude.{◌≡◌, ℕ, ◌+◌, ◌*◌, ◌<◌, ◌≤◌, ◌∷◌, ◌++◌, [], length, take, vec_len, vec_capacity};
ghost use Rattle.std.specs.Prelude.{IfOk, IfErr, OnOk, OnErr, IfSome, IfNone, IsTrue, IsSome};
ghost use Rattle.cox_base.specs.Matrix.{IsLetter};
ghost use Rattle.cox_base.specs.Admissible.{IsCoxeterMatrix};
ghost use Rattle.cox_base.specs.IntegerMatrix.{integer_matrix};
ghost use Rattle.cox_base.specs.ShortLex.{normal_form};
ghost use Rattle.cox_base.specs.Descents.{IsLeftDescent};
ghost use Rattle.cox_context.specs.Appending.{IsNextMember};
ghost use Rattle.cox_context.specs.Closed.{IsClosed};
ghost use Rattle.cox_context.specs.WantedMembers.{IsTop};
ghost use Rattle.cox_context.specs.Building.{IsWanted, HasUpTo, HasChildren};
ghost use Rattle.cox_context.specs.Numbers.{word_at};
ghost use Rattle.cox_context.specs.Growth.{IsNext, IsNoNext};
ghost use Rattle.cox_context.specs.Refusal.{IsPrefixOf};
ghost use Rattle.cox_context.specs.FaultMeaning.{IsRefusal};
ghost use Rattle.cox_context.specs.Shifts.{entry, AreLeftShifts};
ghost use Rattle.cox_context.specs.Rows.{IsRowPushed, IsCutBack};

use crate::ContextFault;
use crate::lifting::is_below_top;
use crate::lower::{first_lower, lower_members};
use crate::members::{MAX_MEMBERS, Members};
use crate::scope::Scope;
use crate::shifts::{LeftShifts, NO_MEMBER, cut_back, entry, place};
use cox_base::{Coxeter, MAX_LETTERS, MAX_RANK};
use std::alloc::{AllocError, Global};
use std::marker::Model;

/// Members, and the table of their left shifts.
#[derive(Drop)]
pub(crate) struct Listing {
    pub(crate) members: Members,
    pub(crate) left: Vec<u32>,
}

/// A search for members, and what was found so far.
///
/// Contracts see what is looked for, and the members. A step of a length or of a letter takes the builder and gives it back with more
/// members, so a fault leaves none; one member is appended in place.
#[derive(Drop)]
pub(crate) struct Builder<'a> {
    scope: &'a Scope,
    limit: u32,
    listing: Listing,
}

impl<'a> Model for Builder<'a> {
    ghost use Rattle.cox_context.specs.Building.{Building, IsBuilder};

    ghost Value = { Building };

    ghost view = { λ b. record {
      search = record { matrix = b.scope.now.group; top = b.scope.now.top; limit = b.limit };
      members = b.listing.members;
    } };

    ghost invariant = { λ b. IsBuilder
        (record { matrix = b.scope.now.group; top = b.scope.now.top; limit = b.limit })
        b.listing.members b.listing.left.items };
}

impl Listing {
    /// The identity alone.
    pub(crate) fn new(alloc: Global, g: &Coxeter) -> Result<Listing, AllocError>
        ensures members { IfOk result (λ l. l.members ≡ [] ∷ []) }
        ensures left { IfOk result (λ l. AreLeftShifts (integer_matrix g.now) l.members l.left.items) }
        ensures matrix { IsCoxeterMatrix g.now }
    {
        let rank = g.rank();
        let members = Members::new(alloc)?;
        let left = vec![in alloc; NO_MEMBER; rank as usize]?;
        Ok(Listing { members, left })
    }

    /// The left shifts, as they are lent.
    pub(crate) fn shifts<'a>(&'a self, group: &'a Coxeter) -> LeftShifts<'a>
        requires closed { IsClosed (integer_matrix group.now) self.now.members }
        requires left { AreLeftShifts (integer_matrix group.now) self.now.members self.now.left.items }
        ensures { result ≡ record { matrix = group.now; members = self.now.members } }
    {
        LeftShifts::new(group, &self.members, self.left.as_slice())
    }

    /// Appends the member y = s x, for the member x with the number j, behind the others. After a fault all is as before.
    pub(crate) fn append(&mut self, group: &Coxeter, s: u8, j: u32) -> Result<(), AllocError>
        requires closed { IsClosed (integer_matrix group.now) self.old.members }
        requires left { AreLeftShifts (integer_matrix group.now) self.old.members self.old.left.items }
        requires letter { IsLetter group.now.rank s }
        requires member { j < length self.old.members }
        requires room { length self.old.members < MAX_MEMBERS }
        requires next { IsNextMember group.now self.old.members s j }
        ensures members { OnOk result (self.new.members
            ≡ self.old.members ++ normal_form (integer_matrix group.now) (s ∷ word_at self.old.members j) ∷ []) }
        ensures left { OnOk result (AreLeftShifts (integer_matrix group.now) self.new.members self.new.left.items) }
        ensures members_kept { OnErr result (self.new.members ≡ self.old.members) }
        ensures left_kept { OnErr result (self.new.left.items ≡ self.old.left.items) }
    {
        let rank = group.rank();
        let number = self.members.len();
        let Ok(lower) = lower_members(&self.shifts(group), s, j) else {
            unreachable!()
        };
        let Some(first) = first_lower(&lower, rank) else {
            unreachable!()
        };
        self.left.reserve(rank as usize)?;
        self.members.push(first.letter, first.rest)?;
        push_row(&mut self.left, rank, number, &lower);
        Ok(())
    }

    /// Only the first members, so many.
    pub(crate) fn cut_back(&mut self, rank: u32, count: u32)
        requires some { 1 ≤ count }
        requires within { count ≤ length self.old.members }
        requires limit { rank ≤ MAX_RANK }
        requires size { length self.old.left.items ≡ length self.old.members * rank }
        ensures members { self.new.members ≡ take count self.old.members }
        ensures left { IsCutBack (count * rank) count self.old.left.items self.new.left.items }
    {
        let _count = self.members.len();
        self.members.cut_back(count);
        cut_back(&mut self.left, rank, count);
    }
}

impl<'a> Builder<'a> {
    /// The identity alone.
    pub(crate) fn new(
        alloc: Global,
        scope: &'a Scope,
        limit: u32,
    ) -> Result<Builder<'a>, ContextFault>
        requires top { IsTop (integer_matrix scope.now.group) scope.now.top }
        requires some { 1 ≤ limit }
        requires limit { limit ≤ MAX_MEMBERS }
        ensures search { IfOk result (λ b. b.search ≡ record { matrix = scope.now.group; top = scope.now.top; limit = limit }) }
        ensures grown { IfOk result (λ b. HasUpTo b 0 0) }
        ensures matrix { IsCoxeterMatrix scope.now.group }
        ensures fault { IfErr result (λ fault. fault ≡ ContextFault.NoMemory) }
    {
        let _rank = scope.group.rank();
        match Listing::new(alloc, &scope.group) {
            Ok(listing) => Ok(Builder {
                scope,
                limit,
                listing,
            }),
            Err(_) => Err(ContextFault::NoMemory),
        }
    }

    /// The rank of the group.
    fn rank(&self) -> u32
        ensures rank { result ≡ self.now.search.matrix.rank }
        ensures limit { result ≤ MAX_RANK }
        ensures matrix { IsCoxeterMatrix self.now.search.matrix }
    {
        self.scope.group.rank()
    }

    /// The number of members that were found.
    fn len(&self) -> u32
        ensures len { result ≡ length self.now.members }
        ensures few { result ≤ MAX_MEMBERS }
    {
        self.listing.members.len()
    }

    /// Finds the members of at most so many letters, and says where those of that length begin.
    pub(crate) fn grow(mut self, letters: u32) -> Result<(Builder<'a>, u32), ContextFault>
        requires short { letters ≤ MAX_LETTERS }
        requires grown { HasUpTo self 0 0 }
        ensures search { IfOk result (λ r. r.0.search ≡ self.entry.search) }
        ensures grown { IfOk result (λ r. HasUpTo r.0 letters r.1) }
        ensures fault { IfErr result (IsRefusal (IsWanted self.entry.search) self.entry.search.limit) }
    {
        let mut low = 0;
        for known in 0..letters {
            let high = self.len();
            self = self.grow_length(known, low)?;
            low = high;
        }
        Ok((self, low))
    }

    /// From the members of at most so many letters to those of one letter more.
    fn grow_length(mut self, letters: u32, low: u32) -> Result<Builder<'a>, ContextFault>
        requires short { letters < MAX_LETTERS }
        requires grown { HasUpTo self letters low }
        ensures search { IfOk result (λ b. b.search ≡ self.entry.search) }
        ensures grown { IfOk result (λ b. HasUpTo b (letters + 1) (length self.entry.members)) }
        ensures fault { IfErr result (IsRefusal (IsWanted self.entry.search) self.entry.search.limit) }
    {
        let rank = self.rank() as u8;
        let high = self.len();
        for s in 1..rank + 1 {
            self = self.grow_letter(letters, low, high, s)?;
        }
        Ok(self)
    }

    /// Finds the members s x with x from low up to high, which are the members of so many letters.
    fn grow_letter(
        mut self,
        letters: u32,
        low: u32,
        high: u32,
        s: u8,
    ) -> Result<Builder<'a>, ContextFault>
        requires short { letters < MAX_LETTERS }
        requires letter { IsLetter self.search.matrix.rank s }
        requires growing { HasChildren self letters low high s low }
        ensures search { IfOk result (λ b. b.search ≡ self.entry.search) }
        ensures growing { IfOk result (λ b. HasChildren b letters low high (s + 1) low) }
        ensures fault { IfErr result (IsRefusal (IsWanted self.entry.search) self.entry.search.limit) }
    {
        let _rank = self.rank();
        for parent in low..high {
            let _len = self.len();
            if let Some(lower) = self.child(s, parent) {
                self.add(s, parent, &lower)?;
            }
        }
        Ok(self)
    }

    /// The shorter elements t y of the child y = s x of the member x with this number, where y is a member and was not found before.
    fn child(&self, s: u8, parent: u32) -> Option<[u32; MAX_RANK]>
        requires letter { IsLetter self.now.search.matrix.rank s }
        requires parent { parent < length self.now.members }
        ensures next { IfSome result (IsNext (integer_matrix self.now.search.matrix) self.now.members self.now.search.top
            (s ∷ word_at self.now.members parent)) }
        ensures none { IfNone result (IsNoNext (integer_matrix self.now.search.matrix) self.now.members self.now.search.top
            (s ∷ word_at self.now.members parent) (length (word_at self.now.members parent))) }
    {
        let scope = self.scope;
        let shifts = self.listing.shifts(&scope.group);
        if shifts.shift(s, parent).is_some() {
            return None;
        }
        let Ok(lower) = lower_members(&shifts, s, parent) else {
            return None;
        };
        if is_below_top(scope, &shifts, &lower) {
            Some(lower)
        } else {
            None
        }
    }

    /// Appends the member y = s x, the child of the member x with this number, if the limit admits one more. After a fault all is as
    /// before.
    ///
    /// Room is made in each table first, so that no table grows where another can not.
    fn add(&mut self, s: u8, parent: u32, lower: &[u32]) -> Result<(), ContextFault>
        requires parent { parent < length self.old.members }
        requires short { length (word_at self.old.members parent) < MAX_LETTERS }
        requires next { IsNext (integer_matrix self.old.search.matrix) self.old.members self.old.search.top
            (s ∷ word_at self.old.members parent) lower.now }
        requires prefix { IsPrefixOf (IsWanted self.old.search) (self.old.members ++ (s ∷ word_at self.old.members parent) ∷ []) }
        requires closed { length self.old.members < MAX_MEMBERS
            → IsClosed (integer_matrix self.old.search.matrix) (self.old.members ++ (s ∷ word_at self.old.members parent) ∷ []) }
        ensures added { OnOk result
            (self.new ≡ record { search = self.old.search; members = self.old.members ++ (s ∷ word_at self.old.members parent) ∷ [] }) }
        ensures kept { OnErr result (self.new ≡ self.old) }
        ensures fault { IfErr result (IsRefusal (IsWanted self.old.search) self.old.search.limit) }
    {
        let rank = self.rank();
        let number = self.listing.members.len();
        if number == self.limit {
            return Err(ContextFault::Size {
                limit: self.limit,
                seen: self.limit + 1,
            });
        }
        if self.listing.left.reserve(rank as usize).is_err()
            || self.listing.members.push(s, parent).is_err()
        {
            return Err(ContextFault::NoMemory);
        }
        push_row(&mut self.listing.left, rank, number, lower);
        Ok(())
    }

    /// Whether an element with one letter more comes from one of the members from low on, the longest.
    pub(crate) fn goes_on(&self, low: u32) -> bool
        requires longest { (i k : ℕ) → low ≤ i → i < length self.now.members → k < length self.now.members
            → length (word_at self.now.members k) ≤ length (word_at self.now.members i) }
        ensures yes { IsTrue result → (i : ℕ) × (s : ℕ) × (low ≤ i) × (i < length self.now.members) × IsLetter self.now.search.matrix.rank s
            × (¬ (IsLeftDescent (integer_matrix self.now.search.matrix) (word_at self.now.members i) s)) }
        ensures no { ¬ (IsTrue result) → (i s : ℕ) → low ≤ i → i < length self.now.members → IsLetter self.now.search.matrix.rank s
            → IsLeftDescent (integer_matrix self.now.search.matrix) (word_at self.now.members i) s }
    {
        let rank = self.rank();
        for i in low..self.len() {
            if lacks_shift(self.listing.left.as_slice(), rank, i) {
                return true;
            }
        }
        false
    }

    /// The members that were found, with their left shifts.
    pub(crate) fn finish(self) -> Listing
        ensures members { result.members ≡ self.entry.members }
        ensures left { AreLeftShifts (integer_matrix self.entry.search.matrix) self.entry.members result.left.items }
        ensures closed { IsClosed (integer_matrix self.entry.search.matrix) self.entry.members }
        ensures few { length self.entry.members ≤ self.entry.search.limit }
    {
        let Builder { listing, .. } = self;
        listing
    }
}

/// Appends the row of the member y with this number, for which there is room: its shifts by the letters that shorten it, which are noted at
/// both members. Or its inverse, in a table that has one entry for each member.
pub(crate) fn push_row(table: &mut Vec<u32>, rank: u32, number: u32, lower: &[u32])
    requires limit { rank ≤ MAX_RANK }
    requires few { number ≤ MAX_MEMBERS }
    requires size { length table.old.items ≡ number * rank }
    requires room { vec_len table.old + rank ≤ vec_capacity table.old }
    requires lower { rank ≤ length lower.now }
    requires below { (t k : ℕ) → IsLetter rank t → entry rank lower.now t 0 ≡ Some k → k ≤ number }
    ensures { IsRowPushed rank number lower.now (rank + 1) table.old.items table.new.items }
{
    for t in 1..rank as u8 + 1 {
        let shorter = entry(lower, rank, t, 0);
        table.push_reserved(lower[t as usize - 1]);
        if let Some(k) = shorter {
            table[place(rank, t, k)] = number;
        }
    }
}

/// Whether the shift of a member by some letter is no member.
fn lacks_shift(table: &[u32], rank: u32, i: u32) -> bool
    requires limit { rank ≤ MAX_RANK }
    requires few { i < MAX_MEMBERS }
    requires within { (i + 1) * rank ≤ length table.now }
    ensures yes { IsTrue result → (s : ℕ) × IsLetter rank s × (entry rank table.now s i ≡ None) }
    ensures no { ¬ (IsTrue result) → (s : ℕ) → IsLetter rank s → IsSome (entry rank table.now s i) }
{
    for s in 1..rank as u8 + 1 {
        if entry(table, rank, s, i).is_none() {
            return true;
        }
    }
    false
}
