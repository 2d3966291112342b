//! A context with rows of its members: look-ups, and contexts that grow.
ghost use Rattle.std.specs.Prelude.{List, Contains, OnErr, ◌≡◌, ◌≢◌, ◌⊎◌, true, is_some, ℕ, ◌<◌, ◌≤◌, ◌↔◌, [], length, IfSome, IsSome};
ghost use Rattle.std.specs.Prelude.{IsTrue, IfOk, OnOk, pos, ◌≤ℤ◌, IfErr};
ghost use Rattle.cox_base.specs.IntegerMatrix.{integer_matrix};
ghost use Rattle.cox_base.specs.Matrix.{IsWord};
ghost use Rattle.cox_base.specs.ShortLex.{normal_form};
ghost use Rattle.cox_base.specs.Bruhat.{IsBelow};
ghost use Rattle.cox_poly.specs.Polynomial.{coefficient};
ghost use Rattle.cox_hecke.specs.Row.{IsKazhdanLusztig, IsMu};
ghost use Rattle.cox_context.specs.Union.{IsInUnion};
ghost use Rattle.cox_context.specs.FaultMeaning.{IsRefusal};
ghost use Rattle.cox_row.specs.Distinct.{HasDistinctPolynomials};
ghost use Rattle.cox_base.specs.Admissible.{IsAdmissible};
ghost use Rattle.cox_context.specs.Closed.{IsClosed};
ghost use Rattle.cox_context.specs.Numbers.{word_at};
ghost use Rattle.cox_context.specs.Numbering.{IsNumberOf};
ghost use Rattle.cox_row.specs.RowLists.{row_at};
ghost use Rattle.cox_rows.specs.Holding.{Holding, HasRow, IsHeldRow, held};
ghost use Rattle.cox_context.specs.Spread.{AreKept};
ghost use Rattle.cox_klstep.specs.TablesOf.{AreTables, AreEarlierTables};

use crate::held::Held;
use cox_base::Word;
use cox_context::{Context, ContextFault, MAX_MEMBERS, Standing};
use cox_klstep::Tables;
use cox_minroots::RootTable;
use cox_poly::PolyView;
use cox_row::{LowerRows, Row, mu, polynomial, pool_len};
use std::alloc::{AllocError, Global};
use std::marker::Model;

/// A context, and the rows of some of its members. Every row that is held is within the limits.
#[derive(Drop)]
pub struct Rows {
    // The context, and the rows by number.
    pub(crate) held: Held,
    // For each member whether it is noted as settled. A member without an entry is not.
    pub(crate) settled: Vec<bool>,
    // Tables that make rows faster: none until a row is made, and after the context has doubled.
    pub(crate) tables: Option<Tables>,
}

impl Model for Rows {
    ghost use Rattle.cox_rows.specs.Holding.{Holding};
    ghost use Rattle.cox_rows.specs.Ensured.{IsStore};

    ghost Value = { Holding };

    ghost view = { λ r. r.held };

    ghost invariant = { λ r. IsStore r.held r.settled.items r.tables };
}

impl Rows {
    /// A context with no rows; no coefficient of a row is to be above the limit in absolute value.
    pub fn new(alloc: Global, context: Context, limit: i64) -> Result<Rows, AllocError>
        requires { pos 0 ≤ℤ limit }
        ensures { IfOk result (λ r. r ≡ record { elements = context; limit = limit; holds = []; steps = 0 }) }
    {
        let mut context = context;
        context.keep_narrow_shifts(alloc)?;
        context.keep_inverses(alloc)?;
        Ok(Rows {
            held: Held::new(alloc, context, limit),
            settled: Vec::new(alloc),
            tables: None,
        })
    }

    /// The context.
    pub fn context(&self) -> &Context
        ensures context { result.now ≡ self.now.elements }
        ensures closed { IsClosed (integer_matrix self.now.elements.matrix) self.now.elements.members }
        ensures admissible { IsAdmissible (integer_matrix self.now.elements.matrix) }
        ensures least { pos 0 ≤ℤ self.now.limit }
        ensures members { (i : ℕ) → HasRow self.now i → i < length self.now.elements.members }
    {
        self.held.context()
    }

    /// The greatest absolute value that a coefficient may have.
    pub fn limit(&self) -> i64
        ensures { result ≡ self.now.limit }
    {
        self.held.greatest()
    }

    /// Whether the row of the member with the number i is held.
    pub fn has(&self, i: u32) -> bool
        ensures { IsTrue result ↔ HasRow self.now i }
    {
        self.held.get(i).is_some()
    }

    /// The row of the member with the number i; `None` exactly where it is not held.
    pub fn row(&self, i: u32) -> Option<&Row>
        ensures row { IfSome result (λ r. IsHeldRow self.now.elements self.now.limit i r.now) }
        ensures exactly { IsSome result ↔ HasRow self.now i }
    {
        self.held.get(i)
    }

    /// P(x,w), for the member w with the number i, whose row is held, and the member x with the number x; `None` exactly where x <= w
    /// fails.
    ///
    /// In A 3 that of `2` and `2132` is 1 + q.
    pub fn polynomial(&self, i: u32, x: u32) -> Option<PolyView<'_>>
        requires held { HasRow self.now i }
        requires x { x < length self.now.elements.members }
        ensures value { IfSome result (λ p. IsKazhdanLusztig (integer_matrix self.now.elements.matrix)
            (word_at self.now.elements.members x) (word_at self.now.elements.members i) (coefficient p)) }
        ensures exactly { IsSome result ↔ IsBelow (integer_matrix self.now.elements.matrix)
            (word_at self.now.elements.members x) (word_at self.now.elements.members i) }
    {
        match self.held.get(i) {
            Some(row) => polynomial(self.held.context(), row, i, x),
            None => unreachable!(),
        }
    }

    /// mu(u,w), for the member w with the number i, whose row is held, and the member u with the number u.
    pub fn mu(&self, i: u32, u: u32) -> i32
        requires held { HasRow self.now i }
        requires u { u < length self.now.elements.members }
        ensures { IsMu (integer_matrix self.now.elements.matrix) (word_at self.now.elements.members u)
            (word_at self.now.elements.members i) result }
    {
        match self.held.get(i) {
            Some(row) => mu(self.held.context(), row, i, u),
            None => unreachable!(),
        }
    }

    /// How many polynomials P(x,w) with x <= w there are, each counted once, for the member w with the number i, whose row is held.
    pub fn pool_len(&self, i: u32) -> u32
        requires { HasRow self.now i }
        ensures { HasDistinctPolynomials (integer_matrix self.now.elements.matrix) (word_at self.now.elements.members i) result }
    {
        match self.held.get(i) {
            Some(row) => pool_len(self.held.context(), row, i),
            None => unreachable!(),
        }
    }

    /// How many polynomials were added up so far for the rows that were made here. It stands still at the end of its 64 bits.
    pub fn steps(&self) -> u64
        ensures { result ≡ self.now.steps }
    {
        self.held.steps()
    }

    /// Takes the row of the member with the number i out; `None` exactly where it is not held. It takes no memory.
    ///
    /// What is known to be settled is forgotten then. `settle_held` notes it anew, and so do the calls that make rows.
    pub fn take(&mut self, i: u32) -> Option<Row>
        ensures row { IfSome result (IsHeldRow self.old.elements self.old.limit i) }
        ensures exactly { IsSome result ↔ HasRow self.old i }
        ensures elements { self.new.elements ≡ self.old.elements }
        ensures limit { self.new.limit ≡ self.old.limit }
        ensures gone { ¬ HasRow self.new i }
        ensures others { (j : ℕ) → j ≢ i → HasRow self.new j ↔ HasRow self.old j }
        ensures steps { self.new.steps ≡ self.old.steps }
    {
        self.settled.clear();
        self.held.take(i)
    }

    /// Holds these rows too, each under its member's number. There may be fewer places than members. It takes no memory.
    pub fn adopt(&mut self, rows: Vec<Option<Row>>)
        requires { (i : ℕ) → IfSome (row_at rows.items i) (IsHeldRow self.old.elements self.old.limit i) }
        ensures elements { self.new.elements ≡ self.old.elements }
        ensures limit { self.new.limit ≡ self.old.limit }
        ensures kept { (i : ℕ) → HasRow self.old i → HasRow self.new i }
        ensures added { (i : ℕ) → is_some (row_at rows.items i) ≡ true → HasRow self.new i }
        ensures others { (i : ℕ) → HasRow self.new i → HasRow self.old i ⊎ (is_some (row_at rows.items i) ≡ true) }
        ensures steps { self.new.steps ≡ self.old.steps }
    {
        self.held.adopt(rows);
    }

    /// Adds the elements x with x <= w to the context, and tells the number of w there. Members and rows keep their numbers.
    ///
    /// `Size` where there are more than `limit` members then. After a fault all is as before. In A 2 the interval of `12` has four
    /// elements, the last with the number 3; with that of `21` there are five, the last with the number 4.
    pub fn extend(&mut self, group: &RootTable, w: &Word, limit: u32) -> Result<u32, ContextFault>
        requires matrix { group.now ≡ self.old.elements.matrix }
        requires letters { IsWord group.now.rank w.now.items }
        requires some { 1 ≤ limit }
        requires limit { limit ≤ MAX_MEMBERS }
        ensures matrix { self.new.elements.matrix ≡ self.old.elements.matrix }
        ensures limit { self.new.limit ≡ self.old.limit }
        ensures kept { AreKept self.old.elements.members self.new.elements.members }
        ensures members { OnOk result ((word : List ℕ) → Contains self.new.elements.members word
            ↔ IsInUnion (integer_matrix group.now) w.now.items self.old.elements.members word) }
        ensures few { OnOk result (length self.new.elements.members ≤ limit) }
        ensures refused { IfErr result (IsRefusal (IsInUnion (integer_matrix group.now) w.now.items self.old.elements.members) limit) }
        ensures number { IfOk result (λ i. IsNumberOf self.new.elements.members (normal_form (integer_matrix group.now) w.now.items)
            (Some i)) }
        ensures holds { self.new.holds ≡ self.old.holds }
        ensures unchanged { OnErr result (self.new ≡ self.old) }
        ensures steps { self.new.steps ≡ self.old.steps }
    {
        let _letters = w.len();
        let context = self.context();
        let before = context.len();
        if before > limit {
            return Err(ContextFault::Size {
                limit,
                seen: limit + 1,
            });
        }
        match context.look_up(group, w) {
            Standing::Member(i) => Ok(i),
            Standing::Outside(form) => {
                let i = self.held.extend(&form, limit)?;
                self.tables = grown(self.held.context(), before, self.tables.take());
                Ok(i)
            }
        }
    }
}

/// Tables of the context, from those that it had when it had fewer members, so many. There are none where it is twice as large now, since
/// new ones may know more symmetries. The next row makes new ones.
fn grown(context: &Context, before: u32, tables: Option<Tables>) -> Option<Tables>
    requires { IfSome tables (AreEarlierTables context.now) }
    ensures { IfSome result (AreTables context.now) }
{
    let mut tables = tables?;
    if context.len() / 2 >= before {
        return None;
    }
    tables.grow(context);
    Some(tables)
}

impl LowerRows for Rows {
    ghost elements = { λ r. r.elements };

    ghost holds = { λ r i. HasRow r i };

    ghost limit = { λ r. r.limit };

    fn limit(&self) -> i64 {
        LowerRows::limit(&self.held)
    }

    fn has(&self, i: u32) -> bool {
        LowerRows::has(&self.held, i)
    }

    fn row(&self, i: u32) -> &Row {
        LowerRows::row(&self.held, i)
    }
}
