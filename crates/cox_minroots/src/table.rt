//! The table of small roots.
ghost use Rattle.std.specs.Prelude.{◌≡◌, ℕ, ◌+◌, ◌-◌, ◌<◌, ◌≤◌, IfOk, IfErr, OnOk};
ghost use Rattle.cox_base.specs.IntegerMatrix.{integer_matrix};
ghost use Rattle.cox_small.specs.SmallRoots.{HasMoreSmallRoots};
ghost use Rattle.cox_small.specs.RootCounts.{HasFewSmallRoots};
ghost use Rattle.cox_minroots.specs.Closure.{WhenTooMany};

use crate::RootFault;
use crate::closure::{MAX_SMALL_ROOTS, close};
use crate::moves::moves;
use cox_base::Coxeter;
use std::alloc::Global;
use std::marker::Model;

/// The small roots of a group, and where each letter takes each of them.
///
/// Contracts see the Coxeter matrix of the group.
#[derive(Drop)]
pub struct RootTable {
    pub(crate) group: Coxeter,
    count: usize,
    pub(crate) moves: Vec<u16>,
}

impl Model for RootTable {
    ghost use Rattle.cox_base.specs.Matrix.{CoxeterMatrix};
    ghost use Rattle.cox_base.specs.IntegerMatrix.{integer_matrix};
    ghost use Rattle.cox_minroots.specs.Moves.{IsRootTable};

    ghost Value = { CoxeterMatrix };

    ghost view = { λ t. t.group };

    ghost invariant = { λ t. IsRootTable (integer_matrix t.group) t.count t.moves.items };
}

impl RootTable {
    /// The table of a group, unless it has more than `max` small roots.
    ///
    /// `TooMany` comes exactly where it has more; `NoMemory` where there is no memory for the table. For example A 2 has three small roots,
    /// so for `max` 2 there is the fault `TooMany` with `seen` 3.
    pub fn build(alloc: Global, g: &Coxeter, max: u32) -> Result<RootTable, RootFault>
        requires some { 1 ≤ max }
        requires limit { max ≤ MAX_SMALL_ROOTS }
        ensures group { IfOk result (λ t. t ≡ g.now) }
        ensures few { OnOk result (HasFewSmallRoots (integer_matrix g.now) max) }
        ensures many { IfErr result (WhenTooMany (λ seen. (seen ≡ max + 1) × HasMoreSmallRoots (integer_matrix g.now) max)) }
    {
        let _rank = g.rank();
        let roots = close(alloc, g, max)?;
        let Ok(moves) = moves(alloc, g, &roots) else {
            return Err(RootFault::NoMemory);
        };
        Ok(RootTable {
            group: g.copy(),
            count: roots.len(),
            moves,
        })
    }

    /// The group.
    pub fn group(&self) -> &Coxeter
        ensures { result.now ≡ self.now }
    {
        &self.group
    }

    /// How many small roots there are.
    pub fn len(&self) -> u32
        ensures not_more { ¬ HasMoreSmallRoots (integer_matrix self.now) result }
        ensures not_fewer { (m : ℕ) → m < result → ¬ HasFewSmallRoots (integer_matrix self.now) m }
        ensures limit { result ≤ MAX_SMALL_ROOTS }
    {
        self.count as u32
    }
}
