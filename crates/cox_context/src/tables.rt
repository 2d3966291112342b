//! What a context keeps of each member beside its left shifts, in tables that grow with the members.
ghost use Rattle.std.specs.Prelude.{◌≡◌, ◌+◌, ◌<◌, ◌≤◌, length, vec_len, vec_capacity, IfOk, OnOk};
ghost use Rattle.cox_base.specs.IntegerMatrix.{integer_matrix};
ghost use Rattle.cox_context.specs.Closed.{IsClosed};
ghost use Rattle.cox_context.specs.Contexts.{AreTables, AreTablesOfOthers};
ghost use Rattle.cox_context.specs.Shifts.{AreLeftShifts};

use crate::builder::Listing;
use crate::descents::{lowering_set, lowering_sets};
use crate::inverses::push_inverse;
use crate::right_shifts::{push_last_row, right_shifts};
use cox_base::Coxeter;
use std::alloc::{AllocError, Global};

/// The right shifts of the members, the sets of their descents, and the numbers of their inverses, where these are kept.
#[derive(Drop)]
pub(crate) struct Tables {
    pub(crate) right: Vec<u32>,
    pub(crate) left_descents: Vec<u16>,
    pub(crate) right_descents: Vec<u16>,
    pub(crate) inverses: Vec<u32>,
}

impl Tables {
    /// The tables of the members that were found; no inverses are kept.
    pub(crate) fn new(
        alloc: Global,
        group: &Coxeter,
        listing: &Listing,
    ) -> Result<Tables, AllocError>
        requires closed { IsClosed (integer_matrix group.now) listing.now.members }
        requires left { AreLeftShifts (integer_matrix group.now) listing.now.members listing.now.left.items }
        ensures { IfOk result (λ t. AreTables (integer_matrix group.now) listing.now.members t.right.items t.left_descents.items
            t.right_descents.items t.inverses.items) }
    {
        let (rank, count) = (group.rank(), listing.members.len());
        let right = right_shifts(alloc, &listing.shifts(group))?;
        let left_descents = lowering_sets(alloc, listing.left.as_slice(), rank, count)?;
        let right_descents = lowering_sets(alloc, right.as_slice(), rank, count)?;
        Ok(Tables {
            right,
            left_descents,
            right_descents,
            inverses: Vec::new(alloc),
        })
    }

    /// Makes room for one more member in each table.
    pub(crate) fn reserve(&mut self, rank: u32) -> Result<(), AllocError>
        ensures right { self.new.right.items ≡ self.old.right.items }
        ensures left_descents { self.new.left_descents.items ≡ self.old.left_descents.items }
        ensures right_descents { self.new.right_descents.items ≡ self.old.right_descents.items }
        ensures inverses { self.new.inverses.items ≡ self.old.inverses.items }
        ensures right_room { OnOk result (vec_len self.new.right + rank ≤ vec_capacity self.new.right) }
        ensures left_room { OnOk result (vec_len self.new.left_descents + 1 ≤ vec_capacity self.new.left_descents) }
        ensures right_descents_room { OnOk result (vec_len self.new.right_descents + 1 ≤ vec_capacity self.new.right_descents) }
        ensures inverses_room { OnOk result (vec_len self.new.inverses + 1 ≤ vec_capacity self.new.inverses) }
    {
        self.right.reserve(rank as usize)?;
        self.left_descents.reserve(1)?;
        self.right_descents.reserve(1)?;
        self.inverses.reserve(1)?;
        Ok(())
    }

    /// Adds what is kept of the last member, for which there is room, to that of the others.
    pub(crate) fn push(&mut self, group: &Coxeter, listing: &Listing)
        requires some { 1 < length listing.now.members }
        requires closed { IsClosed (integer_matrix group.now) listing.now.members }
        requires left { AreLeftShifts (integer_matrix group.now) listing.now.members listing.now.left.items }
        requires others { AreTablesOfOthers (integer_matrix group.now) listing.now.members self.old.right.items
            self.old.left_descents.items self.old.right_descents.items self.old.inverses.items }
        requires right_room { vec_len self.old.right + group.now.rank ≤ vec_capacity self.old.right }
        requires left_room { vec_len self.old.left_descents + 1 ≤ vec_capacity self.old.left_descents }
        requires right_descents_room { vec_len self.old.right_descents + 1 ≤ vec_capacity self.old.right_descents }
        requires inverses_room { vec_len self.old.inverses + 1 ≤ vec_capacity self.old.inverses }
        ensures { AreTables (integer_matrix group.now) listing.now.members self.new.right.items self.new.left_descents.items
            self.new.right_descents.items self.new.inverses.items }
    {
        let rank = group.rank();
        let last = listing.members.len() - 1;
        let shifts = listing.shifts(group);
        push_last_row(&mut self.right, &shifts);
        push_inverse(&mut self.inverses, &shifts, self.right.as_slice());
        let left_set = lowering_set(listing.left.as_slice(), rank, last);
        self.left_descents.push_reserved(left_set);
        let right_set = lowering_set(self.right.as_slice(), rank, last);
        self.right_descents.push_reserved(right_set);
    }
}
