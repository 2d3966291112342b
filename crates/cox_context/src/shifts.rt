//! Tables of shifts: for each member, in order, one entry for each letter.
ghost use Rattle.std.specs.Prelude.{◌≡◌, ◌+◌, ◌-◌, ◌*◌, ◌<◌, ◌≤◌, ◌∷◌, length, slice_index, EachIndex, IfOk, IfSome};
ghost use Rattle.cox_base.specs.Matrix.{IsLetter, label};
ghost use Rattle.cox_base.specs.IntegerMatrix.{integer_matrix};
ghost use Rattle.cox_base.specs.Admissible.{IsCoxeterMatrix};
ghost use Rattle.cox_base.specs.ShortLex.{normal_form};
ghost use Rattle.cox_context.specs.Closed.{IsClosed};
ghost use Rattle.cox_context.specs.Numbers.{word_at};
ghost use Rattle.cox_context.specs.Numbering.{IsNumberOf};
ghost use Rattle.cox_context.specs.Rows.{IsCutBack};
ghost use Rattle.cox_context.specs.Shifts.{entry, entry_number, narrow_number, AreLeftShifts, AreNarrow, IsLower};

use crate::members::{MAX_MEMBERS, Members};
use cox_base::{Coxeter, MAX_RANK};
use std::alloc::{AllocError, Global};
use std::marker::Model;

/// The entry where there is no member.
pub(crate) const NO_MEMBER: u32 = u32::MAX;

/// The entry of a narrow table where there is no member.
pub(crate) const NO_NARROW_MEMBER: u16 = u16::MAX;

/// The greatest number of members whose shifts are kept in narrow tables: so no member has the number `NO_NARROW_MEMBER`.
pub(crate) const MAX_NARROW_MEMBERS: u32 = 65_535;

/// Where the entry of member i for the letter s stands.
pub(crate) fn place(rank: u32, s: u8, i: u32) -> usize
    requires letter { IsLetter rank s }
    requires limit { rank ≤ MAX_RANK }
    requires few { i ≤ MAX_MEMBERS }
    ensures { result ≡ i * rank + (s - 1) }
{
    i as usize * rank as usize + (s as usize - 1)
}

/// The entry of member i for the letter s.
pub(crate) fn entry(table: &[u32], rank: u32, s: u8, i: u32) -> Option<u32>
    requires letter { IsLetter rank s }
    requires limit { rank ≤ MAX_RANK }
    requires few { i ≤ MAX_MEMBERS }
    requires within { i * rank + (s - 1) < length table.now }
    ensures { result ≡ entry rank table.now s i }
{
    let number = table[place(rank, s, i)];
    if number == NO_MEMBER {
        None
    } else {
        Some(number)
    }
}

/// The entry of member i for the letter s: from the narrow table where that has it, else from the wide one.
///
/// So the test whether the place is within the narrow table is also the test whether there is one.
pub(crate) fn entry_by(narrow: &[u16], table: &[u32], rank: u32, s: u8, i: u32) -> Option<u32>
    requires letter { IsLetter rank s }
    requires limit { rank ≤ MAX_RANK }
    requires few { i ≤ MAX_MEMBERS }
    requires within { i * rank + (s - 1) < length table.now }
    requires narrow { AreNarrow table.now narrow.now }
    ensures { result ≡ entry rank table.now s i }
{
    match narrow.get(place(rank, s, i)) {
        Some(&number) => {
            if number == NO_NARROW_MEMBER {
                None
            } else {
                Some(number as u32)
            }
        }
        None => entry(table, rank, s, i),
    }
}

/// The narrow table, of two bytes an entry, that says what a table says.
pub(crate) fn narrowed(alloc: Global, table: &[u32]) -> Result<Vec<u16>, AllocError>
    requires { EachIndex table.now (λ k. IfSome (entry_number (slice_index table.now k)) (λ number. number < NO_NARROW_MEMBER)) }
    ensures size { IfOk result (λ narrow. length narrow.items ≡ length table.now) }
    ensures narrow { IfOk result (λ narrow. AreNarrow table.now narrow.items) }
{
    let mut narrow = Vec::with_capacity(alloc, table.len())?;
    for &number in table {
        narrow.push_reserved(narrow_entry(number));
    }
    Ok(narrow)
}

/// An entry in two bytes.
fn narrow_entry(number: u32) -> u16
    requires { IfSome (entry_number number) (λ number. number < NO_NARROW_MEMBER) }
    ensures { narrow_number result ≡ entry_number number }
{
    if number == NO_MEMBER {
        NO_NARROW_MEMBER
    } else {
        number as u16
    }
}

/// Only the rows of the first members, so many, in which an entry that leads to a later member says that there is none.
pub(crate) fn cut_back(table: &mut Vec<u32>, rank: u32, count: u32)
    requires limit { rank ≤ MAX_RANK }
    requires few { count ≤ MAX_MEMBERS }
    requires within { count * rank ≤ length table.old.items }
    ensures { IsCutBack (count * rank) count table.old.items table.new.items }
{
    table.truncate(count as usize * rank as usize);
    for number in table.iter_mut() {
        if *number >= count {
            *number = NO_MEMBER;
        }
    }
}

/// Members of a group, closed downwards in Bruhat order, with the table of their left shifts, as they are lent. Contracts see the Coxeter
/// matrix and the members.
#[derive(Drop)]
pub(crate) struct LeftShifts<'a> {
    group: &'a Coxeter,
    members: &'a Members,
    table: &'a [u32],
}

impl<'a> Model for LeftShifts<'a> {
    ghost use Rattle.cox_base.specs.IntegerMatrix.{integer_matrix};
    ghost use Rattle.cox_context.specs.Closed.{Elements};
    ghost use Rattle.cox_context.specs.LentShifts.{HaveLeftShifts};

    ghost Value = { Elements };

    ghost view = { λ s. record { matrix = s.group.now; members = s.members.now } };

    ghost invariant = { λ s. HaveLeftShifts (integer_matrix s.group.now) s.members.now s.table.now };
}

impl<'a> LeftShifts<'a> {
    /// The members with their table.
    pub(crate) fn new(group: &'a Coxeter, members: &'a Members, table: &'a [u32]) -> LeftShifts<'a>
        requires closed { IsClosed (integer_matrix group.now) members.now }
        requires left { AreLeftShifts (integer_matrix group.now) members.now table.now }
        ensures { result ≡ record { matrix = group.now; members = members.now } }
    {
        LeftShifts {
            group,
            members,
            table,
        }
    }

    /// The rank of the group.
    pub(crate) fn rank(&self) -> u32
        ensures rank { result ≡ self.now.matrix.rank }
        ensures limit { result ≤ MAX_RANK }
        ensures matrix { IsCoxeterMatrix self.now.matrix }
        ensures closed { IsClosed (integer_matrix self.now.matrix) self.now.members }
    {
        self.group.rank()
    }

    /// m(s,t), as `Coxeter::label` tells it.
    pub(crate) fn label(&self, s: u8, t: u8) -> u32
        requires s { IsLetter self.now.matrix.rank s }
        requires t { IsLetter self.now.matrix.rank t }
        ensures { result ≡ label self.now.matrix s t }
    {
        self.group.label(s, t)
    }

    /// The members.
    pub(crate) fn members(&self) -> &'a Members
        ensures { result.now ≡ self.now.members }
    {
        self.members
    }

    /// The number of s x for the member x with the number i, where it is a member.
    pub(crate) fn shift(&self, s: u8, i: u32) -> Option<u32>
        requires letter { IsLetter self.now.matrix.rank s }
        requires member { i < length self.now.members }
        ensures { IsNumberOf self.now.members (normal_form (integer_matrix self.now.matrix) (s ∷ word_at self.now.members i)) result }
    {
        prove!(self.members.len() <= MAX_MEMBERS);
        entry(self.table, self.group.rank(), s, i)
    }

    /// The number of s x for the member x with the number i, where s shortens x.
    pub(crate) fn lower(&self, s: u8, i: u32) -> Option<u32>
        requires letter { IsLetter self.now.matrix.rank s }
        requires member { i < length self.now.members }
        ensures { IsLower (integer_matrix self.now.matrix) self.now.members (word_at self.now.members i) s result }
    {
        let _rank = self.rank();
        let shift = self.shift(s, i)?;
        if shift < i { Some(shift) } else { None }
    }
}
