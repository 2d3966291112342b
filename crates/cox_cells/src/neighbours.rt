//! The neighbours of all members, one list behind another.
//!
//! Rows stand all over memory, and those that other processors made are far away. So what is read of them is copied in one tight loop, in
//! which the processor waits for several rows at a time.
ghost use Rattle.std.specs.Prelude.{◌≡◌, ℕ, ◌+◌, ◌<◌, length, IfOk};
ghost use Rattle.cox_cells.specs.NeighbourLists.{AreNeighbours, HasNeighbours};

use cox_context::Context;
use cox_row::LowerRows;
use std::alloc::{AllocError, Global};

/// For each member those before it for which mu is not 0.
#[derive(Drop)]
pub(crate) struct Neighbours {
    /// For each member where its neighbours begin, and at the end where the last ones end.
    offsets: Vec<usize>,
    numbers: Vec<u32>,
}

impl Neighbours {
    /// The neighbours of all members, from their rows.
    pub(crate) fn of<L: LowerRows>(
        alloc: Global,
        context: &Context,
        rows: &L,
    ) -> Result<Neighbours, AllocError>
        requires rows { L.elements rows.now ≡ context.now }
        requires held { (i : ℕ) → i < length context.now.members → L.holds rows.now i }
        ensures { IfOk result (λ all. AreNeighbours context.now (length context.now.members) all.offsets.items all.numbers.items) }
    {
        let mut offsets = Vec::with_capacity(alloc, context.len() as usize + 1)?;
        let mut numbers = Vec::new(alloc);
        offsets.push(0)?;
        for j in 0..context.len() {
            numbers.extend_from_slice(rows.row(j).neighbours())?;
            offsets.push(numbers.len())?;
        }
        Ok(Neighbours { offsets, numbers })
    }

    /// The neighbours of a member.
    pub(crate) fn before(&self, context: &Context, j: u32) -> &[u32]
        requires neighbours { AreNeighbours context.now (length context.now.members) self.now.offsets.items self.now.numbers.items }
        requires member { j < length context.now.members }
        ensures { HasNeighbours context.now j result.now }
    {
        let _len = context.len();
        let start = self.offsets[j as usize];
        let end = self.offsets[j as usize + 1];
        &self.numbers[start..end]
    }
}
