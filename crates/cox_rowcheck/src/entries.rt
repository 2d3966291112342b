//! The entries of a column, one behind another.
//!
//! An entry R(x,v) has l(v) - l(x) + 1 coefficients where x <= v, and none elsewhere. The columns of the prefixes of a word of 39
//! letters are there at once, each with 4,096 entries at most, and with room for l(v) + 1 coefficients of 8 bytes and a span of 16 in
//! each. That is 30 MB at most.
ghost use Rattle.std.specs.Prelude.{◌≡◌, ℕ, ◌^◌, ◌<◌, ◌≤◌, [], ◌∷◌, ◌++◌, pos, length, unsigned_abs, IfOk, OnOk, OnErr};
ghost use Rattle.cox_poly.specs.Coefficients.{plus, times_q, times_q_less_one};
ghost use Rattle.cox_poly.specs.Polynomial.{coefficient};
ghost use Rattle.cox_rpoly.specs.Terms.{LeavesRoom, numbered};
ghost use Rattle.cox_rowcheck.specs.EntryLists.{HasOneMore, HasAppended};

use std::alloc::{AllocError, Global};
use std::marker::Model;

/// Where the coefficients of a polynomial stand.
#[derive(Clone, Copy)]
pub(crate) struct Span {
    /// The place of the first.
    start: usize,
    /// The place behind the last.
    end: usize,
}

/// A list of polynomials.
///
/// Contracts see the list, each polynomial as the list of its coefficients.
#[derive(Drop)]
pub(crate) struct Entries {
    // the coefficients of all, one polynomial behind another
    coefficients: Vec<i64>,
    // where those of each stand
    spans: Vec<Span>,
}

impl Model for Entries {
    ghost use Rattle.std.specs.Prelude.{List, ℤ, All, length};
    ghost use Rattle.cox_rowcheck.specs.EntryLists.{IsSpan, pieces};

    ghost Value = { List (List ℤ) };

    ghost view = { λ e. pieces e.coefficients.items e.spans.items };

    ghost invariant = { λ e. All (IsSpan (length e.coefficients.items)) e.spans.items };
}

impl Entries {
    /// No polynomials, with room for so many of so many coefficients each.
    pub(crate) fn new(alloc: Global, room: u32, terms: u32) -> Result<Entries, AllocError>
        ensures { IfOk result (λ entries. entries ≡ []) }
    {
        let coefficients = Vec::with_capacity(alloc, room as usize * terms as usize)?;
        let spans = Vec::with_capacity(alloc, room as usize)?;
        Ok(Entries {
            coefficients,
            spans,
        })
    }

    /// How many polynomials there are.
    pub(crate) fn len(&self) -> usize
        ensures { result ≡ length self.now }
    {
        self.spans.len()
    }

    /// The coefficients of the i-th polynomial; none behind the last one.
    pub(crate) fn at(&self, i: usize) -> &[i64]
        ensures { result.now ≡ numbered self.now i }
    {
        if i >= self.spans.len() {
            return &self.coefficients[..0];
        }
        let span = self.spans[i];
        &self.coefficients[span.start..span.end]
    }

    /// Puts a polynomial behind the others.
    pub(crate) fn push(&mut self, f: &[i64]) -> Result<(), AllocError>
        ensures { OnOk result (self.new ≡ self.old ++ f.now ∷ []) }
    {
        let start = self.coefficients.len();
        self.coefficients.extend_from_slice(f)?;
        let end = self.coefficients.len();
        self.spans.push(Span { start, end })?;
        Ok(())
    }

    /// Puts (q - 1) f + q h behind the others.
    pub(crate) fn push_combined(&mut self, f: &[i64], h: &[i64]) -> Result<(), AllocError>
        requires small_f { LeavesRoom f.now }
        requires small_h { LeavesRoom h.now }
        ensures { OnOk result (HasOneMore self.old self.new
            (plus (times_q_less_one (coefficient f.now)) (times_q (coefficient h.now)))) }
    {
        let start = self.coefficients.len();
        append_combined(&mut self.coefficients, f, h)?;
        let end = self.coefficients.len();
        self.spans.push(Span { start, end })?;
        Ok(())
    }
}

/// Puts the coefficients of (q - 1) f + q h behind those of a list: one more than f or h has, and none where both have none.
fn append_combined(list: &mut Vec<i64>, f: &[i64], h: &[i64]) -> Result<(), AllocError>
    requires small_f { LeavesRoom f.now }
    requires small_h { LeavesRoom h.now }
    ensures appended { OnOk result (HasAppended list.old.items list.new.items
        (plus (times_q_less_one (coefficient f.now)) (times_q (coefficient h.now)))) }
    ensures kept { OnErr result (list.new.items ≡ list.old.items) }
{
    if f.is_empty() && h.is_empty() {
        return Ok(());
    }
    let start = list.len();
    let end = start + f.len().max(h.len()) + 1;
    list.resize(end, 0)?;
    combine(&mut list[start..], f, h);
    Ok(())
}

/// Writes (q - 1) f + q h over zeros.
fn combine(entry: &mut [i64], f: &[i64], h: &[i64])
    requires zeros { (k : ℕ) → coefficient entry.old k ≡ pos 0 }
    requires long_f { length f.now < length entry.old }
    requires long_h { length h.now < length entry.old }
    requires small_f { LeavesRoom f.now }
    requires small_h { LeavesRoom h.now }
    ensures { (k : ℕ) → coefficient entry.new k ≡ plus (times_q_less_one (coefficient f.now)) (times_q (coefficient h.now)) k }
{
    write_less_one(entry, f);
    add_times_q(entry, h);
}

/// Writes (q - 1) f over zeros.
fn write_less_one(entry: &mut [i64], f: &[i64])
    requires zeros { (k : ℕ) → coefficient entry.old k ≡ pos 0 }
    requires long { length f.now < length entry.old }
    requires small { LeavesRoom f.now }
    ensures { (k : ℕ) → coefficient entry.new k ≡ times_q_less_one (coefficient f.now) k }
{
    let mut before = 0;
    for (k, c) in f.iter().enumerate() {
        entry[k] = before - *c;
        before = *c;
    }
    entry[f.len()] = before;
}

/// Adds q h.
fn add_times_q(entry: &mut [i64], h: &[i64])
    requires long { length h.now < length entry.old }
    requires room { (k : ℕ) → unsigned_abs (coefficient entry.old k) ≤ 2 ^ 62 }
    requires small { LeavesRoom h.now }
    ensures { (k : ℕ) → coefficient entry.new k ≡ plus (coefficient entry.old) (times_q (coefficient h.now)) k }
{
    for (k, c) in h.iter().enumerate() {
        entry[1 + k] += *c;
    }
}
