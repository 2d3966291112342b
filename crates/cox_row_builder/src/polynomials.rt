//! The polynomials of a row that is being made: extremal members so far, each with the place of its polynomial in a pool.
ghost use Rattle.std.specs.Prelude.{◌≡◌, ℕ, List, ◌+◌, ◌^◌, ◌<◌, ◌≤◌, ℤ, length, [], ◌∷◌, ◌++◌, Err, IfOk, OnOk};
ghost use Rattle.cox_base.specs.IntegerMatrix.{IntegerMatrix};
ghost use Rattle.cox_base.specs.Bruhat.{IsBelow};
ghost use Rattle.cox_poly.specs.Polynomial.{coefficient, SameCoefficients};
ghost use Rattle.cox_poly.specs.Limit.{AllWithin, IsFirstAbove};
ghost use Rattle.cox_hecke.specs.Row.{IsKazhdanLusztig};
ghost use Rattle.cox_context.specs.Numbers.{word_at};
ghost use Rattle.cox_row.specs.Extremal.{IsExtremal};
ghost use Rattle.cox_row.specs.Polynomials.{polynomial_at};
ghost use Rattle.cox_row_builder.specs.Underway.{IsPooled, AreBegun};

use crate::pool::{Pool, print_of};
use cox_poly::{Acc, PolyFault};
use cox_row::Places;
use std::alloc::{AllocError, Global};

/// Extremal members so far, each with the place of its polynomial in the pool.
#[derive(Drop)]
pub(crate) struct RowPolynomials {
    pub(crate) extremal: Vec<u32>,
    pub(crate) places: Places,
    pub(crate) pool: Pool,
}

impl RowPolynomials {
    /// No members, with room for so many.
    pub(crate) fn with_capacity(alloc: Global, count: usize) -> Result<RowPolynomials, AllocError>
        ensures { IfOk result (λ values. (A : IntegerMatrix) → (members : List (List ℕ)) (w : List ℕ) (limit : ℤ)
            → AreBegun A members w limit 0 values.extremal.items values.places values.pool) }
    {
        Ok(RowPolynomials {
            extremal: Vec::with_capacity(alloc, count)?,
            places: Places::with_capacity(alloc, count)?,
            pool: Pool::new(alloc),
        })
    }

    /// One extremal member more, whose polynomial has these sums; its place in the pool.
    pub(crate) fn keep(
        &mut self,
        alloc: Global,
        x: u32,
        sums: &Acc,
        limit: i64,
    ) -> Result<u32, PolyFault>
        requires few { length self.old.pool ≤ x }
        requires small { (j : ℕ) → j < length self.old.pool → AllWithin limit (polynomial_at self.old.pool j) }
        ensures kept { IfOk result (λ _. (A : IntegerMatrix) → (members : List (List ℕ)) (w : List ℕ)
            → AreBegun A members w limit x self.old.extremal.items self.old.places self.old.pool
            → IsExtremal A w (word_at members x) → IsBelow A (word_at members x) w
            → IsKazhdanLusztig A (word_at members x) w (coefficient sums.now)
            → AreBegun A members w limit (x + 1) self.new.extremal.items self.new.places self.new.pool) }
        ensures within { IfOk result (λ place. place < length self.new.pool) }
        ensures more { IfOk result (λ _. length self.new.extremal.items ≡ length self.old.extremal.items + 1) }
        ensures polynomial { IfOk result (λ place. SameCoefficients (polynomial_at self.new.pool place) sums.now) }
        ensures too_big { (d : ℕ) (v : ℤ) → result ≡ Err (PolyFault.TooBig d v) → IsFirstAbove limit sums.now d v }
        ensures unchanged { (d : ℕ) (v : ℤ) → result ≡ Err (PolyFault.TooBig d v) → self.new ≡ self.old }
    {
        let place = match pooled_place(alloc, &mut self.pool, sums, limit) {
            Ok(place) => place,
            Err(fault) => return Err(fault),
        };
        match self.append(x, place) {
            Ok(()) => Ok(place),
            Err(_) => Err(PolyFault::NoMemory),
        }
    }

    /// One extremal member more, with the place of its polynomial.
    fn append(&mut self, x: u32, place: u32) -> Result<(), AllocError>
        ensures extremal { OnOk result (self.new.extremal.items ≡ self.old.extremal.items ++ x ∷ []) }
        ensures places { OnOk result (self.new.places ≡ self.old.places ++ place ∷ []) }
        ensures pool { self.new.pool ≡ self.old.pool }
    {
        self.extremal.push(x)?;
        self.places.push(place)?;
        Ok(())
    }
}

/// The place of the polynomial with these sums in the pool, where it is put if it is new.
fn pooled_place(alloc: Global, pool: &mut Pool, sums: &Acc, limit: i64) -> Result<u32, PolyFault>
    requires few { length pool.old < 2 ^ 32 }
    requires small { (j : ℕ) → j < length pool.old → AllWithin limit (polynomial_at pool.old j) }
    ensures place { IfOk result (IsPooled limit sums.now pool.old pool.new) }
    ensures too_big { (d : ℕ) (v : ℤ) → result ≡ Err (PolyFault.TooBig d v) → IsFirstAbove limit sums.now d v }
    ensures unchanged { (d : ℕ) (v : ℤ) → result ≡ Err (PolyFault.TooBig d v) → pool.new ≡ pool.old }
{
    let print = print_of(sums);
    if let Some(place) = pool.find(sums, print) {
        return Ok(place);
    }
    let polynomial = match sums.close(alloc, limit) {
        Ok(polynomial) => polynomial,
        Err(fault) => return Err(fault),
    };
    let place = pool.len() as u32;
    match pool.push(&polynomial, sums, print) {
        Ok(()) => Ok(place),
        Err(_) => Err(PolyFault::NoMemory),
    }
}
