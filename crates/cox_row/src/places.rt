//! The places of polynomials in a pool.
ghost use Rattle.std.specs.Prelude.{◌≡◌, ◌<◌, ◌++◌, ◌∷◌, [], length, IfOk, OnOk, OnErr};
ghost use Rattle.cox_row.specs.Rising.{number_at};

use std::alloc::{AllocError, Global};
use std::marker::Model;

/// The places of polynomials in a pool. They take two bytes each as long as they fit into these, and four from the first on that does not.
///
/// Contracts see the list of the places.
#[derive(Drop)]
pub struct Places {
    // those at the front
    narrow: Vec<u16>,
    // those behind them
    wide: Vec<u32>,
}

impl Model for Places {
    ghost use Rattle.std.specs.Prelude.{ℕ, List, ◌++◌};

    ghost Value = { List ℕ };

    ghost view = { λ p. p.narrow.items ++ p.wide.items };
}

impl Places {
    /// No places.
    pub fn new(alloc: Global) -> Places
        ensures { result ≡ [] }
    {
        Places {
            narrow: Vec::new(alloc),
            wide: Vec::new(alloc),
        }
    }

    /// No places, with room for so many that fit into two bytes.
    pub fn with_capacity(alloc: Global, count: usize) -> Result<Places, AllocError>
        ensures { IfOk result (λ places. places ≡ []) }
    {
        Ok(Places {
            narrow: Vec::with_capacity(alloc, count)?,
            wide: Vec::new(alloc),
        })
    }

    /// How many places there are.
    pub fn len(&self) -> usize
        ensures { result ≡ length self.now }
    {
        self.narrow.len() + self.wide.len()
    }

    /// The k-th place, counted from 0.
    pub fn at(&self, k: usize) -> u32
        requires { k < length self.now }
        ensures { result ≡ number_at self.now k }
    {
        let front = self.narrow.len();
        if k < front {
            u32::from(self.narrow[k])
        } else {
            self.wide[k - front]
        }
    }

    /// Puts a place behind the others. `AllocError` leaves the list as it was.
    pub fn push(&mut self, place: u32) -> Result<(), AllocError>
        ensures pushed { OnOk result (self.new ≡ self.old ++ place ∷ []) }
        ensures kept { OnErr result (self.new ≡ self.old) }
    {
        if self.wide.is_empty() && place < 1 << 16 {
            self.narrow.push(place as u16)?;
        } else {
            self.wide.push(place)?;
        }
        Ok(())
    }

    /// Gives back memory that is not used.
    pub fn shrink_to_fit(&mut self)
        ensures { self.new ≡ self.old }
    {
        self.narrow.shrink_to_fit();
        self.wide.shrink_to_fit();
    }
}
