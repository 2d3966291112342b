//! How the rows of Need(i) are made.
//!
//! The row of w is made from that of sw, for the least left descent s of w, and from those of the corrections of the step. So these are
//! made first, by recursion to smaller numbers. Where all rows are asked for, they are made in the order of the members, and corrections
//! are not looked for. A member is settled when no row of its Need is beyond the limits and all of them are held. That is noted, so that
//! nothing is looked at twice. Where a row is taken out, all notes are forgotten.
ghost use Rattle.std.specs.Prelude.{◌≡◌, ◌≢◌, ℕ, ℤ, ◌<◌, ◌≤◌, ◌∷◌, length, IsTrue, IfOk, IfErr, IfSome, OnOk, Ok, None, false};
ghost use Rattle.cox_base.specs.declared.side.Side.TheVariants.{Left};
ghost use Rattle.cox_base.specs.IntegerMatrix.{integer_matrix};
ghost use Rattle.cox_hecke.specs.Needs.{IsNeeded};
ghost use Rattle.cox_hecke.specs.Step.{IsCorrection};
ghost use Rattle.cox_context.specs.Numbers.{word_at};
ghost use Rattle.cox_row.specs.Rising.{number_at};
ghost use Rattle.cox_row.specs.RowOf.{IsRowAt};
ghost use Rattle.cox_row_symmetry.specs.DescentOf.{IsDescentAt};
ghost use Rattle.cox_klstep.specs.NeedsOf.{HasNeeds, AreNeeds};
ghost use Rattle.cox_klstep.specs.TablesOf.{AreTables};
ghost use Rattle.cox_row_builder.specs.Faults.{IsFault};
ghost use Rattle.cox_rows.specs.Beyond.{NeedsBeyond};
ghost use Rattle.cox_rows.specs.CountedRows.{AreRowsCounted};
ghost use Rattle.cox_rows.specs.Holding.{HasRow, held};
ghost use Rattle.cox_rows.specs.RowsFaults.{IsRowsFault, IsFaultOfSome};
ghost use Rattle.cox_rows.specs.Ensured.{HoldsNeed, AreNeededBefore, IsEnsured, IsSettled};

use crate::Rows;
use crate::flags::set_at;
use cox_base::Side;
use cox_context::Context;
use cox_klstep::{Descent, StepFault, Tables, needs, shortens};
use cox_row::Row;
use std::alloc::{AllocError, Global};

impl Rows {
    /// Makes the rows of Need(z) that are not there, for the member z with the number i, and no others; all of Need(z) is held then. Where
    /// all are there, nothing is added up.
    ///
    /// `Coefficient` or `Mu` where the row of an element of Need(z) is beyond a limit; what was made before that is held. In A 2, with all
    /// six elements as members, the rows that `121` needs are those of `121`, `21`, `1` and the identity.
    pub fn ensure(&mut self, i: u32) -> Result<(), StepFault>
        requires { i < length self.old.elements.members }
        ensures rows { IsEnsured (word_at self.old.elements.members i) self.old self.new }
        ensures there { OnOk result (HasRow self.new i) }
        ensures all { OnOk result (HoldsNeed self.new (word_at self.old.elements.members i)) }
        ensures small { OnOk result (¬ NeedsBeyond (integer_matrix self.old.elements.matrix) self.old.limit
            (word_at self.old.elements.members i)) }
        ensures fault { IfErr result (IsRowsFault self.old.elements self.old.limit
            (IsNeeded (integer_matrix self.old.elements.matrix) (word_at self.old.elements.members i))) }
    {
        let done = self.ensure_until(i, u64::MAX)?;
        prove!(self.steps() <= u64::MAX);
        if !done {
            unreachable!();
        }
        Ok(())
    }

    /// Makes some of these rows: once more than so many polynomials were added up, no other row is begun. Says whether all are there, and
    /// none of them is beyond a limit; then `ensure` has nothing to do. Where one is, or memory runs out, it says no, and `ensure` tells
    /// why.
    ///
    /// With `most` 0, at most one row is made for which something is added up.
    pub fn begin(&mut self, i: u32, most: u64) -> bool
        requires { i < length self.old.elements.members }
        ensures rows { IsEnsured (word_at self.old.elements.members i) self.old self.new }
        ensures there { IsTrue result → HasRow self.new i }
        ensures all { IsTrue result → HoldsNeed self.new (word_at self.old.elements.members i) }
        ensures small { IsTrue result → ¬ NeedsBeyond (integer_matrix self.old.elements.matrix) self.old.limit
            (word_at self.old.elements.members i) }
    {
        let last = self.steps().saturating_add(most);
        match self.ensure_until(i, last) {
            Ok(done) => done,
            Err(_) => false,
        }
    }

    /// Makes the rows of Need(z) that are not there, for the member z with the number i, and no others, until more than `last` polynomials
    /// were added up here in all. Says whether it has come to the end.
    #[cycle(ensuring)]
    fn ensure_until(&mut self, i: u32, last: u64) -> Result<bool, StepFault>
        requires { i < length self.old.elements.members }
        ensures rows { IsEnsured (word_at self.old.elements.members i) self.old self.new }
        ensures settled { IfOk result (λ done. IsTrue done → IsSettled self.new i) }
        ensures stopped { IfOk result (λ done. done ≡ false → last < self.new.steps) }
        ensures fault { IfErr result (IsRowsFault self.old.elements self.old.limit
            (IsNeeded (integer_matrix self.old.elements.matrix) (word_at self.old.elements.members i))) }
    {
        let _context = self.context();
        if self.is_settled(i) {
            return Ok(true);
        }
        if !self.ensure_lower(i, last)? {
            return Ok(false);
        }
        if self.steps() > last {
            return Ok(false);
        }
        self.make_settled(i)?;
        Ok(true)
    }

    /// Makes the rows that the row of the member with the number i is made from, and what they need, in the same way.
    #[cycle(ensuring)]
    fn ensure_lower(&mut self, i: u32, last: u64) -> Result<bool, StepFault>
        requires { i < length self.old.elements.members }
        ensures rows { IsEnsured (word_at self.old.elements.members i) self.old self.new }
        ensures settled { IfOk result (λ done. IsTrue done → HasNeeds self.old.elements (IsSettled self.new) i) }
        ensures stopped { IfOk result (λ done. done ≡ false → last < self.new.steps) }
        ensures fault { IfErr result (IsRowsFault self.old.elements self.old.limit
            (IsNeeded (integer_matrix self.old.elements.matrix) (word_at self.old.elements.members i))) }
    {
        let context = self.context();
        if i == 0 {
            return Ok(true);
        }
        let descent = Descent::of(context, i);
        if !self.ensure_until(descent.lower, last)? {
            return Ok(false);
        }
        let corrections = self.corrections(&descent)?;
        self.ensure_each(i, corrections.as_slice(), last)
    }

    /// The same for these members, one after another. The row of the member with the number i needs theirs.
    #[cycle(ensuring)]
    fn ensure_each(&mut self, i: u32, numbers: &[u32], last: u64) -> Result<bool, StepFault>
        requires { AreNeededBefore self.old.elements i numbers.now }
        ensures rows { IsEnsured (word_at self.old.elements.members i) self.old self.new }
        ensures settled { IfOk result (λ done. IsTrue done → (k : ℕ) → k < length numbers.now
            → IsSettled self.new (number_at numbers.now k)) }
        ensures stopped { IfOk result (λ done. done ≡ false → last < self.new.steps) }
        ensures fault { IfErr result (IsRowsFault self.old.elements self.old.limit
            (IsNeeded (integer_matrix self.old.elements.matrix) (word_at self.old.elements.members i))) }
    {
        let _context = self.context();
        'each: for &u in numbers {
            if !self.ensure_until(u, last)? {
                return Ok(false);
            }
        }
        Ok(true)
    }

    /// Makes all rows that are not there, in the order of the members. Where all are there, nothing is added up.
    ///
    /// A fault is that of the row of some member.
    pub fn ensure_all(&mut self) -> Result<(), StepFault>
        ensures elements { self.new.elements ≡ self.old.elements }
        ensures limit { self.new.limit ≡ self.old.limit }
        ensures kept { (j : ℕ) → HasRow self.old j → HasRow self.new j }
        ensures there { OnOk result ((i : ℕ) → i < length self.old.elements.members → HasRow self.new i) }
        ensures small { OnOk result ((i : ℕ) → i < length self.old.elements.members
            → ¬ NeedsBeyond (integer_matrix self.old.elements.matrix) self.old.limit (word_at self.old.elements.members i)) }
        ensures counted { AreRowsCounted self.old self.new }
        ensures again { ((i : ℕ) → i < length self.old.elements.members → HasRow self.old i) → self.new.steps ≡ self.old.steps }
        ensures fault { IfErr result (IsFaultOfSome self.old.elements self.old.limit) }
    {
        'members: for i in 0..self.context().len() {
            self.ensure_next(i)?;
        }
        Ok(())
    }

    /// Says whether all rows that the row of the member with the number i is made from are held. Then at most one row is left to make.
    /// Without memory the answer is no.
    pub fn has_needs(&self, i: u32) -> bool
        requires { i < length self.now.elements.members }
        ensures { IsTrue result → HasNeeds self.now.elements (HasRow self.now) i }
    {
        let context = self.context();
        if i == 0 {
            return true;
        }
        let descent = Descent::of(context, i);
        if !self.has(descent.lower) {
            return false;
        }
        match self.corrections(&descent) {
            Ok(corrections) => self.has_each(corrections.as_slice()),
            Err(_) => false,
        }
    }

    /// Whether the rows of all these members are held.
    fn has_each(&self, numbers: &[u32]) -> bool
        ensures { IsTrue result → (k : ℕ) → k < length numbers.now → HasRow self.now (number_at numbers.now k) }
    {
        for &u in numbers {
            if !self.has(u) {
                return false;
            }
        }
        true
    }

    /// Whether it is known of the member with the number i that all rows of its Need are held, and none of them is beyond a limit. Then
    /// `ensure` has nothing to do. After `ensure` or `ensure_all` it is so, unless there was a fault, until a row is taken out.
    pub fn is_settled(&self, i: u32) -> bool
        ensures there { IsTrue result → HasRow self.now i }
        ensures small { IsTrue result → IsSettled self.now i }
    {
        match self.settled.get(i as usize) {
            Some(settled) => *settled,
            None => false,
        }
    }

    /// Notes which members are settled, of those whose rows are held. No row is made. Then `ensure` has nothing left to do for a member
    /// whose Need has no rows but those that are held.
    ///
    /// The members are gone through in their order, so those that a row is made from come before it. Where memory runs out, the others are
    /// left.
    pub fn settle_held(&mut self)
        ensures { self.new ≡ self.old }
    {
        let mut all = true;
        'members: for i in 0..self.context().len() {
            if self.is_settled(i) {
                continue;
            }
            if !self.can_settle(i, all) {
                all = false;
                continue;
            }
            let Ok(()) = self.settle(i) else {
                return;
            };
        }
    }

    /// Whether the row of the member with the number i is held, and the members whose rows it is made from are known to be settled. These
    /// are not looked for where all members before it are settled.
    fn can_settle(&self, i: u32, all: bool) -> bool
        requires { IsTrue all → (j : ℕ) → j < i → IsSettled self.now j }
        ensures there { IsTrue result → HasRow self.now i }
        ensures needs { IsTrue result → HasNeeds self.now.elements (IsSettled self.now) i }
    {
        let context = self.context();
        if !self.has(i) {
            return false;
        }
        if all || i == 0 {
            return true;
        }
        let descent = Descent::of(context, i);
        match self.held.get(descent.lower) {
            Some(lower) => self.is_settled(descent.lower) && self.are_settled(&descent, lower),
            None => false,
        }
    }

    /// Whether the members that correct the step by a descent are known to be settled.
    fn are_settled(&self, descent: &Descent, lower: &Row) -> bool
        requires descent { IsDescentAt self.now.elements descent.now }
        requires lower { IsRowAt self.now.elements descent.now.lower lower.now }
        ensures { IsTrue result → (u : ℕ) → (m : ℤ) → u < length self.now.elements.members
            → IsCorrection Left (integer_matrix self.now.elements.matrix) descent.now.letter
            (descent.now.letter ∷ word_at self.now.elements.members descent.now.member) (word_at self.now.elements.members u) m
            → IsSettled self.now u }
    {
        let context = self.context();
        for &u in lower.neighbours() {
            if shortens(context, Side::Left, descent.letter, u) && !self.is_settled(u) {
                return false;
            }
        }
        true
    }

    /// Makes the row of the member with the number i, unless it is there, where all members before it are settled. The row is made from
    /// theirs.
    fn ensure_next(&mut self, i: u32) -> Result<(), StepFault>
        requires member { i < length self.old.elements.members }
        requires before { (j : ℕ) → j < i → IsSettled self.old j }
        ensures elements { self.new.elements ≡ self.old.elements }
        ensures limit { self.new.limit ≡ self.old.limit }
        ensures kept { (j : ℕ) → HasRow self.old j → HasRow self.new j }
        ensures settled { OnOk result (IsSettled self.new i) }
        ensures counted { AreRowsCounted self.old self.new }
        ensures again { HasRow self.old i → self.new.steps ≡ self.old.steps }
        ensures fault { IfErr result (IsFaultOfSome self.old.elements self.old.limit) }
    {
        let _context = self.context();
        if self.is_settled(i) {
            return Ok(());
        }
        self.make_settled(i)
    }

    /// The members that correct the step by a descent, where the row of the shorter element is there.
    fn corrections(&self, descent: &Descent) -> Result<Vec<u32>, AllocError>
        requires descent { IsDescentAt self.now.elements descent.now }
        requires lower { HasRow self.now descent.now.lower }
        ensures { IfOk result (λ v. AreNeeds (integer_matrix self.now.elements.matrix) self.now.elements.members descent.now.letter
            (word_at self.now.elements.members descent.now.member) v.items) }
    {
        let alloc = *self.settled.allocator();
        let Some(lower) = self.held.get(descent.lower) else {
            unreachable!();
        };
        let mut numbers = Vec::new(alloc);
        needs(self.held.context(), descent, lower, &mut numbers)?;
        Ok(numbers)
    }

    /// Makes the row of the member with the number i, unless it is there, where all that it is made from is settled, and notes that the
    /// member is settled.
    fn make_settled(&mut self, i: u32) -> Result<(), StepFault>
        requires member { i < length self.old.elements.members }
        requires needs { HasNeeds self.old.elements (IsSettled self.old) i }
        ensures elements { self.new.elements ≡ self.old.elements }
        ensures limit { self.new.limit ≡ self.old.limit }
        ensures kept { (j : ℕ) → HasRow self.old j → HasRow self.new j }
        ensures others { (j : ℕ) → j ≢ i → HasRow self.new j → HasRow self.old j }
        ensures settled { OnOk result (IsSettled self.new i) }
        ensures again { HasRow self.old i → self.new.steps ≡ self.old.steps }
        ensures counted { AreRowsCounted self.old self.new }
        ensures fault { IfErr result (IsFault (integer_matrix self.old.elements.matrix) self.old.elements.members self.old.limit
            (λ w. w ≡ i)) }
    {
        self.make(i)?;
        self.settle(i)
    }

    /// Makes the row of the member with the number i, unless it is there.
    fn make(&mut self, i: u32) -> Result<(), StepFault>
        requires member { i < length self.old.elements.members }
        requires needs { HasNeeds self.old.elements (HasRow self.old) i }
        ensures elements { self.new.elements ≡ self.old.elements }
        ensures limit { self.new.limit ≡ self.old.limit }
        ensures kept { (j : ℕ) → HasRow self.old j → HasRow self.new j }
        ensures others { (j : ℕ) → j ≢ i → HasRow self.new j → HasRow self.old j }
        ensures there { OnOk result (HasRow self.new i) }
        ensures again { HasRow self.old i → self.new.steps ≡ self.old.steps }
        ensures counted { AreRowsCounted self.old self.new }
        ensures fault { IfErr result (IsFault (integer_matrix self.old.elements.matrix) self.old.elements.members self.old.limit
            (λ w. w ≡ i)) }
    {
        if self.held.get(i).is_some() {
            return Ok(());
        }
        let alloc = *self.settled.allocator();
        let mut tables = self.take_tables(alloc)?;
        let made = self.held.make(alloc, i, &mut tables);
        self.tables = Some(tables);
        made
    }

    /// The tables of the context, which are taken out.
    fn take_tables(&mut self, alloc: Global) -> Result<Tables, AllocError>
        ensures same { self.new ≡ self.old }
        ensures tables { IfOk result (AreTables self.old.elements) }
    {
        taken_or_new(alloc, self.held.context(), &mut self.tables)
    }

    /// Notes that the member with the number i is settled, where its row is there and all that the row is made from is settled.
    fn settle(&mut self, i: u32) -> Result<(), StepFault>
        requires member { i < length self.old.elements.members }
        requires there { HasRow self.old i }
        requires needs { HasNeeds self.old.elements (IsSettled self.old) i }
        ensures same { self.new ≡ self.old }
        ensures settled { OnOk result (IsSettled self.new i) }
        ensures fault { IfErr result (IsFault (integer_matrix self.old.elements.matrix) self.old.elements.members self.old.limit
            (λ w. w ≡ i)) }
    {
        let _context = self.held.context();
        set_at(&mut self.settled, i as usize)?;
        Ok(())
    }
}

/// The tables that there are, which are taken out; new ones of the context where there are none.
fn taken_or_new(
    alloc: Global,
    context: &Context,
    tables: &mut Option<Tables>,
) -> Result<Tables, AllocError>
    requires { IfSome tables.old (AreTables context.now) }
    ensures tables { IfOk result (AreTables context.now) }
    ensures same { IfSome tables.old (λ old. result ≡ Ok old) }
    ensures none { tables.new ≡ None }
{
    match tables.take() {
        Some(tables) => Ok(tables),
        None => Tables::of(alloc, context),
    }
}
