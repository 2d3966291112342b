//! A set of roots in the order in which they came.
ghost use Rattle.std.specs.Prelude.{◌≡◌, ◌<◌, [], length, Contains, OnOk, OnErr, MatchOption};
ghost use Rattle.cox_minroots.specs.RootLists.{root_at, IsInserted};

use crate::root::Root;
use indexmap::IndexSet;
use std::alloc::{AllocError, Global};
use std::marker::Model;

/// Distinct roots, numbered from 0 in the order in which they came. Contracts see the list of them.
#[derive(Drop)]
pub(crate) struct Roots {
    set: IndexSet<Root>,
}

impl Model for Roots {
    ghost use Rattle.std.specs.Prelude.{List};
    ghost use Rattle.cox_minroots.specs.declared.root.Root.{Root};

    ghost Value = { List Root };

    ghost view = { λ r. r.set.keys };
}

impl Roots {
    /// No roots.
    pub(crate) fn new(alloc: Global) -> Roots
        ensures { result ≡ [] }
    {
        Roots {
            set: IndexSet::new(alloc),
        }
    }

    /// How many roots there are.
    pub(crate) fn len(&self) -> usize
        ensures { result ≡ length self.now }
    {
        self.set.len()
    }

    /// The root with this number.
    pub(crate) fn at(&self, i: usize) -> Root
        requires { i < length self.now }
        ensures { result ≡ root_at self.now i }
    {
        self.set.as_slice()[i]
    }

    /// The number of a root, if it is here.
    pub(crate) fn number(&self, root: &Root) -> Option<usize>
        ensures { MatchOption result (¬ Contains self.now root.now) (λ i. (i < length self.now) × (root_at self.now i ≡ root.now)) }
    {
        self.set.get_index_of(root)
    }

    /// Puts a root last, unless it is here. Memory can run out for a new root only, and the roots stay then.
    pub(crate) fn insert(&mut self, root: Root) -> Result<(), AllocError>
        ensures inserted { OnOk result (IsInserted self.old root self.new) }
        ensures fault { OnErr result (¬ Contains self.old root) }
        ensures kept { OnErr result (self.new ≡ self.old) }
    {
        let Ok(_) = self.set.insert(root) else {
            return Err(AllocError);
        };
        Ok(())
    }
}
