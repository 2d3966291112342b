//! Where the extremal members of a row stand in their list, with no search.
ghost use Rattle.std.specs.Prelude.{◌≡◌, ◌≢◌, ℕ, ◌<◌, ◌≤◌, ◌^◌, [], length, IfSome, IfNone, OnOk};
ghost use Rattle.std.specs.Arc.{arc_value};
ghost use Rattle.cox_row.specs.Rising.{number_at, AreRising, AreWithin};
ghost use Rattle.cox_row.specs.RowOf.{IsRowAt};
ghost use Rattle.cox_row.specs.Index.{IsIndexOf};

use crate::Row;
use cox_context::Context;
use std::alloc::{AllocError, Global};
use std::marker::Model;

/// For each extremal member of one row where it stands in their list. What stands for any other member means nothing: a look-up sees by
/// the list whether the member is there. So nothing is cleared before it becomes the index of another row.
///
/// Contracts see the list of the entries, one for each member.
#[derive(Drop)]
pub struct RowIndex {
    entries: Vec<u32>,
}

impl Model for RowIndex {
    ghost use Rattle.std.specs.Prelude.{ℕ, List};

    ghost Value = { List ℕ };

    ghost view = { λ i. i.entries.items };
}

impl RowIndex {
    /// With no entries.
    pub fn new(alloc: Global) -> RowIndex
        ensures { result ≡ [] }
    {
        RowIndex {
            entries: Vec::new(alloc),
        }
    }

    /// Becomes the index of the polynomials of the row of the member with the number i. After an `AllocError` it may be that of no row.
    pub fn lay(&mut self, ctx: &Context, row: &Row, i: u32) -> Result<(), AllocError>
        requires i { i < length ctx.now.members }
        requires row { IsRowAt ctx.now i row.now }
        ensures { OnOk result (IsIndexOf (arc_value row.now.values).extremal.items self.new) }
    {
        let _len = ctx.len();
        make_room(&mut self.entries, ctx.len() as usize)?;
        put_places(&mut self.entries, &row.values().extremal);
        Ok(())
    }
}

/// Appends entries until there are so many.
fn make_room(entries: &mut Vec<u32>, count: usize) -> Result<(), AllocError>
    ensures { OnOk result (count ≤ length entries.new.items) }
{
    if entries.len() < count {
        entries.resize(count, 0)?;
    }
    Ok(())
}

/// Puts for each number of a list the place where it stands there.
fn put_places(entries: &mut [u32], numbers: &[u32])
    requires rising { AreRising numbers.now }
    requires within { AreWithin (length entries.old) numbers.now }
    requires few { length numbers.now ≤ 2 ^ 32 }
    ensures { IsIndexOf numbers.now entries.new }
{
    for (k, &x) in numbers.iter().enumerate() {
        entries[x as usize] = k as u32;
    }
}

/// The place of a number in a list that has an index, if it is there.
#[inline(always)]
pub(crate) fn place_by_index(numbers: &[u32], index: &RowIndex, x: u32) -> Option<usize>
    requires index { IsIndexOf numbers.now index.now }
    ensures within { IfSome result (λ k. k < length numbers.now) }
    ensures place { IfSome result (λ k. number_at numbers.now k ≡ x) }
    ensures none { IfNone result ((k : ℕ) → k < length numbers.now → number_at numbers.now k ≢ x) }
{
    let entry = *index.entries.get(x as usize)?;
    let k = entry as usize;
    if k < numbers.len() && numbers[k] == x {
        Some(k)
    } else {
        None
    }
}
