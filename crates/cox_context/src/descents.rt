//! The descents of each member as a set of bits, read off a table of shifts.
ghost use Rattle.std.specs.Prelude.{◌≡◌, ◌+◌, ◌-◌, ◌*◌, ◌<◌, ◌≤◌, length, IfOk, filter};
ghost use Rattle.cox_base.specs.ShortLex.{letters};
ghost use Rattle.cox_context.specs.Shifts.{entry};
ghost use Rattle.cox_context.specs.Sets.{is_lower, has_letter, IsLoweringSet, AreLoweringSets};

use crate::members::MAX_MEMBERS;
use crate::shifts::entry;
use cox_base::{MAX_RANK, Word};
use std::alloc::{AllocError, Global};

/// For each of so many members the set of the letters that take it to a member before it.
pub(crate) fn lowering_sets(
    alloc: Global,
    table: &[u32],
    rank: u32,
    count: u32,
) -> Result<Vec<u16>, AllocError>
    requires limit { rank ≤ MAX_RANK }
    requires few { count ≤ MAX_MEMBERS }
    requires within { count * rank ≤ length table.now }
    ensures { IfOk result (λ sets. AreLoweringSets rank table.now count sets.items) }
{
    let mut sets = Vec::new(alloc);
    for i in 0..count {
        sets.push(lowering_set(table, rank, i))?;
    }
    Ok(sets)
}

/// The set of the letters that take member i to a member before it: bit s - 1 for the letter s.
pub(crate) fn lowering_set(table: &[u32], rank: u32, i: u32) -> u16
    requires limit { rank ≤ MAX_RANK }
    requires few { i < MAX_MEMBERS }
    requires within { (i + 1) * rank ≤ length table.now }
    ensures { IsLoweringSet rank table.now i (rank + 1) result }
{
    let mut set = 0u16;
    for s in 1..rank as u8 + 1 {
        if is_lower(i, entry(table, rank, s, i)) {
            set |= 1u16 << (s - 1);
        }
    }
    set
}

/// Whether a shift takes member i to a member before it.
fn is_lower(i: u32, shift: Option<u32>) -> bool
    ensures { result ≡ is_lower i shift }
{
    match shift {
        Some(k) => k < i,
        None => false,
    }
}

/// The letters of a set, rising.
pub(crate) fn letters_of(set: u16, rank: u32) -> Word
    requires limit { rank ≤ MAX_RANK }
    ensures { result.items ≡ filter (has_letter set) (letters rank) }
{
    let mut found = Word::new();
    for s in 1..rank as u8 + 1 {
        if (set >> (s - 1)) & 1 == 1 {
            found.push(s);
        }
    }
    found
}
