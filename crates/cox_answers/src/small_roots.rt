//! The table of small roots, which workspaces with the same group share.
ghost use Rattle.std.specs.Prelude.{◌≡◌, IfOk};

use cox_minroots::RootTable;
use std::alloc::{AllocError, Global};
use std::marker::Model;
use std::sync::Arc;

/// The table of small roots of a group, which is built once and shared. Contracts see the Coxeter matrix of the group.
#[derive(Drop)]
pub(crate) struct SmallRoots {
    table: Arc<RootTable>,
}

impl Model for SmallRoots {
    ghost use Rattle.std.specs.Arc.{arc_value};
    ghost use Rattle.cox_base.specs.Matrix.{CoxeterMatrix};

    ghost Value = { CoxeterMatrix };

    ghost view = { λ r. arc_value r.table };
}

impl SmallRoots {
    /// Those of this table.
    pub fn new(alloc: Global, table: RootTable) -> Result<SmallRoots, AllocError>
        ensures { IfOk result (λ roots. roots ≡ table) }
    {
        Ok(SmallRoots {
            table: Arc::new(alloc, table)?,
        })
    }

    /// The same again, by the same table.
    pub fn share(&self) -> Result<SmallRoots, AllocError>
        ensures { IfOk result (λ roots. roots ≡ self.now) }
    {
        Ok(SmallRoots {
            table: Arc::try_clone(&self.table)?,
        })
    }

    /// The table.
    pub fn table(&self) -> &RootTable
        ensures { result.now ≡ self.now }
    {
        &self.table
    }
}
