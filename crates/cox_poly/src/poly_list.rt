//! Polynomials that are kept one behind another.
ghost use Rattle.std.specs.Prelude.{◌≡◌, ◌<◌, ◌≤◌, ◌∷◌, ◌++◌, [], length, slice_index_or, OnOk, OnErr};
ghost use Rattle.cox_poly.specs.PolyLists.{start_at, piece, AreStored};

use crate::NoMemory;
use crate::poly_view::PolyView;
use std::alloc::{AllocError, Global};
use std::marker::Model;

/// A list of polynomials that takes two pieces of memory, whatever its length.
///
/// Contracts see the list of the polynomials, each as the list of its coefficients.
#[derive(Drop)]
pub struct PolyList {
    // the coefficients of all, one polynomial behind another
    coefficients: Vec<i64>,
    // for each polynomial where its coefficients end
    ends: Vec<u32>,
}

impl Model for PolyList {
    ghost use Rattle.std.specs.Prelude.{List, ℤ};
    ghost use Rattle.cox_poly.specs.PolyLists.{pieces, AreStored};

    ghost Value = { List (List ℤ) };

    ghost view = { λ l. pieces l.coefficients.items l.ends.items };

    ghost invariant = { λ l. AreStored l.coefficients.items l.ends.items };
}

impl PolyList {
    /// No polynomials.
    pub fn new(alloc: Global) -> PolyList
        ensures { result ≡ [] }
    {
        PolyList {
            coefficients: Vec::new(alloc),
            ends: Vec::new(alloc),
        }
    }

    /// How many polynomials there are.
    pub fn len(&self) -> usize
        ensures { result ≡ length self.now }
    {
        self.ends.len()
    }

    /// The polynomial at the place k, counted from 0.
    pub fn at(&self, k: usize) -> PolyView<'_>
        requires { k < length self.now }
        ensures { result ≡ slice_index_or self.now k [] }
    {
        PolyView::of_trimmed(piece(&self.coefficients, &self.ends, k))
    }

    /// Puts a polynomial behind the others. `NoMemory` leaves the list as it was; it also comes where all polynomials
    /// together would have `2^32` coefficients or more.
    pub fn push(&mut self, p: &PolyView<'_>) -> Result<(), NoMemory>
        ensures pushed { OnOk result (self.new ≡ self.old ++ p.now ∷ []) }
        ensures kept { OnErr result (self.new ≡ self.old) }
    {
        let start = start_at(&self.ends, self.ends.len());
        let coefficients = p.coefficients();
        let Ok(end) = u32::try_from(start + coefficients.len()) else {
            return Err(AllocError);
        };
        self.coefficients.truncate(start);
        self.coefficients.extend_from_slice(coefficients)?;
        self.ends.push(end)?;
        Ok(())
    }

    /// Gives back memory that is not used.
    pub fn shrink_to_fit(&mut self)
        ensures { self.new ≡ self.old }
    {
        self.coefficients.shrink_to_fit();
        self.ends.shrink_to_fit();
    }
}

// Where the coefficients of the polynomial at a place begin.
fn start_at(ends: &[u32], k: usize) -> usize
    requires { k ≤ length ends.now }
    ensures { result ≡ start_at ends.now k }
{
    if k == 0 { 0 } else { ends[k - 1] as usize }
}

// The coefficients of the polynomial at a place.
fn piece<'a>(coefficients: &'a [i64], ends: &[u32], k: usize) -> &'a [i64]
    requires stored { AreStored coefficients.now ends.now }
    requires place { k < length ends.now }
    ensures { result.now ≡ piece coefficients.now ends.now k }
{
    let start = start_at(ends, k);
    let end = ends[k] as usize;
    &coefficients[start..end]
}
