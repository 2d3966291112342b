//! A context, and rows of some of its members.
ghost use Rattle.std.specs.Prelude.{List, Contains, ◌≡◌, ◌≢◌, ◌⊎◌, ℕ, ◌<◌, ◌≤◌, ◌↔◌, [], length, IfSome, IsSome, IfOk, OnOk, OnErr};
ghost use Rattle.std.specs.Prelude.{Some, None, is_some, true, pos, ◌≤ℤ◌, IfErr};
ghost use Rattle.cox_base.specs.Admissible.{IsAdmissible};
ghost use Rattle.cox_base.specs.IntegerMatrix.{integer_matrix};
ghost use Rattle.cox_context.specs.Closed.{IsClosed};
ghost use Rattle.cox_context.specs.FaultMeaning.{IsRefusal};
ghost use Rattle.cox_base.specs.Members.{IsElement};
ghost use Rattle.cox_context.specs.Union.{IsInUnion};
ghost use Rattle.cox_context.specs.Numbers.{word_at};
ghost use Rattle.cox_context.specs.Numbering.{IsNumberOf};
ghost use Rattle.cox_row.specs.RowLists.{row_at};
ghost use Rattle.cox_row_builder.specs.Counted.{counted};
ghost use Rattle.cox_row_builder.specs.Faults.{IsFault};
ghost use Rattle.cox_row_symmetry.specs.ImagesAtHand.{IsMadeByStep};
ghost use Rattle.cox_klstep.specs.CountedSteps.{IsWithinSteps, IsCounted};
ghost use Rattle.cox_klstep.specs.NeedsOf.{HasNeeds};
ghost use Rattle.cox_klstep.specs.TablesOf.{AreTables};
ghost use Rattle.cox_rows.specs.Beyond.{IsBeyond};
ghost use Rattle.cox_rows.specs.CountedRows.{AreRowsCounted};
ghost use Rattle.cox_rows.specs.Holding.{Holding, HasRow, IsHeldRow, AreBoth, held};
ghost use Rattle.cox_context.specs.Spread.{AreKept};

use cox_base::Word;
use cox_context::{Context, ContextFault, MAX_MEMBERS};
use cox_klstep::{StepFault, Steps, Tables, row};
use cox_row::{LowerRows, Row};
use std::alloc::{AllocError, Global};
use std::marker::Model;
use std::mem;

/// A context, and rows of its members, each under its member's number. There may be fewer places for rows than members.
#[derive(Drop)]
pub(crate) struct Held {
    context: Context,
    rows: Vec<Option<Row>>,
    limit: i64,
    /// How many polynomials were added up for the rows that were made here.
    steps: u64,
}

impl Model for Held {
    ghost use Rattle.cox_rows.specs.Holding.{Holding, AreRows, held};

    ghost Value = { Holding };

    ghost view = { λ h. record { elements = h.context; limit = h.limit; holds = held h.rows.items; steps = h.steps } };

    ghost invariant = { λ h. AreRows h.context h.limit h.rows.items };
}

impl Held {
    /// A context with no rows.
    pub(crate) fn new(alloc: Global, context: Context, limit: i64) -> Held
        requires { pos 0 ≤ℤ limit }
        ensures { result ≡ record { elements = context; limit = limit; holds = []; steps = 0 } }
    {
        Held {
            context,
            rows: Vec::new(alloc),
            limit,
            steps: 0,
        }
    }

    /// The context.
    pub(crate) fn context(&self) -> &Context
        ensures context { result.now ≡ self.now.elements }
        ensures closed { IsClosed (integer_matrix self.now.elements.matrix) self.now.elements.members }
        ensures admissible { IsAdmissible (integer_matrix self.now.elements.matrix) }
        ensures least { pos 0 ≤ℤ self.now.limit }
        ensures members { (i : ℕ) → HasRow self.now i → i < length self.now.elements.members }
        ensures small { (i : ℕ) → HasRow self.now i
            → ¬ IsBeyond (integer_matrix self.now.elements.matrix) self.now.limit (word_at self.now.elements.members i) }
    {
        let _len = self.context.len();
        &self.context
    }

    /// The greatest absolute value of a coefficient.
    pub(crate) fn greatest(&self) -> i64
        ensures { result ≡ self.now.limit }
    {
        self.limit
    }

    /// The row of the member with the number i, if it is there.
    pub(crate) fn get(&self, i: u32) -> Option<&Row>
        ensures row { IfSome result (λ r. IsHeldRow self.now.elements self.now.limit i r.now) }
        ensures exactly { IsSome result ↔ HasRow self.now i }
    {
        match self.rows.get(i as usize) {
            Some(Some(row)) => Some(row),
            _ => None,
        }
    }

    /// Puts the row of the member with the number i.
    pub(crate) fn put(&mut self, i: u32, row: Row) -> Result<(), AllocError>
        requires { IsHeldRow self.old.elements self.old.limit i row }
        ensures elements { self.new.elements ≡ self.old.elements }
        ensures limit { self.new.limit ≡ self.old.limit }
        ensures there { OnOk result (HasRow self.new i) }
        ensures kept { (j : ℕ) → HasRow self.old j → HasRow self.new j }
        ensures others { (j : ℕ) → j ≢ i → HasRow self.new j → HasRow self.old j }
        ensures steps { self.new.steps ≡ self.old.steps }
    {
        put_at(&mut self.rows, i as usize, row)
    }

    /// Takes the row of the member with the number i out, if it is there.
    pub(crate) fn take(&mut self, i: u32) -> Option<Row>
        ensures row { IfSome result (IsHeldRow self.old.elements self.old.limit i) }
        ensures exactly { IsSome result ↔ HasRow self.old i }
        ensures elements { self.new.elements ≡ self.old.elements }
        ensures limit { self.new.limit ≡ self.old.limit }
        ensures gone { ¬ HasRow self.new i }
        ensures others { (j : ℕ) → j ≢ i → HasRow self.new j ↔ HasRow self.old j }
        ensures steps { self.new.steps ≡ self.old.steps }
    {
        take_at(&mut self.rows, i as usize)
    }

    /// Makes the row of the member with the number i from rows that are there, and puts it.
    pub(crate) fn make(
        &mut self,
        alloc: Global,
        i: u32,
        tables: &mut Tables,
    ) -> Result<(), StepFault>
        requires member { i < length self.old.elements.members }
        requires needs { HasNeeds self.old.elements (HasRow self.old) i }
        requires tables { AreTables self.old.elements tables.old }
        ensures elements { self.new.elements ≡ self.old.elements }
        ensures limit { self.new.limit ≡ self.old.limit }
        ensures kept { (j : ℕ) → HasRow self.old j → HasRow self.new j }
        ensures others { (j : ℕ) → j ≢ i → HasRow self.new j → HasRow self.old j }
        ensures there { OnOk result (HasRow self.new i) }
        ensures steps { IsWithinSteps self.old.elements i self.old.steps self.new.steps }
        ensures made { OnOk result (IsMadeByStep self.old.elements (HasRow self.old) i
            → IsCounted self.old.elements i self.old.steps self.new.steps) }
        ensures counted { AreRowsCounted self.old self.new }
        ensures fault { IfErr result (IsFault (integer_matrix self.old.elements.matrix) self.old.elements.members self.old.limit
            (λ w. w ≡ i)) }
        ensures tables { AreTables self.old.elements tables.new }
    {
        let mut steps = Steps::new();
        let made = row(alloc, self.context(), i, self, tables, &mut steps);
        self.add_steps(&steps);
        self.put(i, made?)?;
        Ok(())
    }

    /// How many polynomials were added up for the rows that were made here.
    pub(crate) fn steps(&self) -> u64
        ensures { result ≡ self.now.steps }
    {
        self.steps
    }

    /// Adds those for one row more. The count stands still at the end of its 64 bits.
    pub(crate) fn add_steps(&mut self, more: &Steps)
        ensures elements { self.new.elements ≡ self.old.elements }
        ensures limit { self.new.limit ≡ self.old.limit }
        ensures kept { (j : ℕ) → HasRow self.old j → HasRow self.new j }
        ensures others { (j : ℕ) → HasRow self.new j → HasRow self.old j }
        ensures counted { self.new.steps ≡ counted self.old.steps more.now }
        ensures none { more.now ≡ 0 → self.new.steps ≡ self.old.steps }
    {
        self.steps = self.steps.saturating_add(more.taken());
    }

    /// Puts rows of members beside those that are there. It takes no memory.
    pub(crate) fn adopt(&mut self, rows: Vec<Option<Row>>)
        requires { (i : ℕ) → IfSome (row_at rows.items i) (IsHeldRow self.old.elements self.old.limit i) }
        ensures elements { self.new.elements ≡ self.old.elements }
        ensures limit { self.new.limit ≡ self.old.limit }
        ensures kept { (i : ℕ) → HasRow self.old i → HasRow self.new i }
        ensures added { (i : ℕ) → is_some (row_at rows.items i) ≡ true → HasRow self.new i }
        ensures others { (i : ℕ) → HasRow self.new i → HasRow self.old i ⊎ (is_some (row_at rows.items i) ≡ true) }
        ensures steps { self.new.steps ≡ self.old.steps }
    {
        let alloc = *self.rows.allocator();
        let old = mem::replace(&mut self.rows, Vec::new(alloc));
        self.rows = both(old, rows);
    }

    /// Adds the elements below the element with this normal form to the context, and tells its number. Members and rows keep their numbers.
    /// After a fault all is as before.
    pub(crate) fn extend(&mut self, form: &Word, limit: u32) -> Result<u32, ContextFault>
        requires form { IsElement (integer_matrix self.old.elements.matrix) form.now.items }
        requires limit { limit ≤ MAX_MEMBERS }
        requires room { length self.old.elements.members ≤ limit }
        ensures matrix { self.new.elements.matrix ≡ self.old.elements.matrix }
        ensures limit { self.new.limit ≡ self.old.limit }
        ensures kept { AreKept self.old.elements.members self.new.elements.members }
        ensures members { OnOk result ((word : List ℕ) → Contains self.new.elements.members word
            ↔ IsInUnion (integer_matrix self.old.elements.matrix) form.now.items self.old.elements.members word) }
        ensures few { OnOk result (length self.new.elements.members ≤ limit) }
        ensures number { IfOk result (λ i. IsNumberOf self.new.elements.members form.now.items (Some i)) }
        ensures refused { IfErr result
            (IsRefusal (IsInUnion (integer_matrix self.old.elements.matrix) form.now.items self.old.elements.members) limit) }
        ensures holds { self.new.holds ≡ self.old.holds }
        ensures unchanged { OnErr result (self.new ≡ self.old) }
        ensures steps { self.new.steps ≡ self.old.steps }
    {
        let _old = self.context.len();
        let result = self.context.extend_to(form, limit);
        let _new = self.context.len();
        result
    }
}

/// Takes the row at a place out, if there is one.
fn take_at(rows: &mut Vec<Option<Row>>, i: usize) -> Option<Row>
    ensures taken { result ≡ row_at rows.old.items i }
    ensures gone { row_at rows.new.items i ≡ None }
    ensures others { (j : ℕ) → j ≢ i → row_at rows.new.items j ≡ row_at rows.old.items j }
{
    if i >= rows.len() {
        return None;
    }
    rows[i].take()
}

impl LowerRows for Held {
    ghost elements = { λ h. h.elements };

    ghost holds = { λ h i. HasRow h i };

    ghost limit = { λ h. h.limit };

    fn limit(&self) -> i64 {
        let _context = self.context();
        self.greatest()
    }

    fn has(&self, i: u32) -> bool {
        self.get(i).is_some()
    }

    fn row(&self, i: u32) -> &Row {
        match self.get(i) {
            Some(row) => row,
            None => unreachable!(),
        }
    }
}

/// Puts a row at a place, where there may be none yet. Without memory no row is put.
fn put_at(rows: &mut Vec<Option<Row>>, i: usize, row: Row) -> Result<(), AllocError>
    ensures at { OnOk result (row_at rows.new.items i ≡ Some row) }
    ensures others { (j : ℕ) → j ≢ i → row_at rows.new.items j ≡ row_at rows.old.items j }
    ensures failed { OnErr result ((j : ℕ) → row_at rows.new.items j ≡ row_at rows.old.items j) }
    ensures kept { (j : ℕ) → is_some (row_at rows.old.items j) ≡ true → is_some (row_at rows.new.items j) ≡ true }
{
    make_room(rows, i)?;
    rows[i] = Some(row);
    Ok(())
}

/// Appends places without rows until there is one with the number i.
fn make_room(rows: &mut Vec<Option<Row>>, i: usize) -> Result<(), AllocError>
    ensures same { (j : ℕ) → row_at rows.new.items j ≡ row_at rows.old.items j }
    ensures room { OnOk result (i < length rows.new.items) }
{
    'places: while rows.len() <= i {
        rows.push(None)?;
    }
    Ok(())
}

/// The rows of both lists, each at its place. It takes no memory: the longer list is kept.
fn both(first: Vec<Option<Row>>, second: Vec<Option<Row>>) -> Vec<Option<Row>>
    ensures { AreBoth first.items second.items result.items }
{
    if first.len() < second.len() {
        with_rows(second, first)
    } else {
        with_rows(first, second)
    }
}

/// A list of rows with those of a list that is not longer put at their places.
fn with_rows(rows: Vec<Option<Row>>, more: Vec<Option<Row>>) -> Vec<Option<Row>>
    requires { length more.items ≤ length rows.items }
    ensures { AreBoth rows.items more.items result.items }
{
    let mut all = rows;
    let mut more = more;
    'places: for i in 0..more.len() {
        if let Some(row) = take_at(&mut more, i) {
            set_at(&mut all, i, row);
        }
    }
    all
}

/// Puts a row at a place that is there.
fn set_at(rows: &mut Vec<Option<Row>>, i: usize, row: Row)
    requires { i < length rows.old.items }
    ensures at { row_at rows.new.items i ≡ Some row }
    ensures others { (j : ℕ) → j ≢ i → row_at rows.new.items j ≡ row_at rows.old.items j }
    ensures count { length rows.new.items ≡ length rows.old.items }
{
    rows[i] = Some(row);
}
