//! The table of the inverses of the members: one entry for each member, as in a table of shifts by one letter.
ghost use Rattle.std.specs.Prelude.{◌≡◌, ℕ, ◌+◌, ◌*◌, ◌<◌, ◌≤◌, ◌∷◌, length, reverse, vec_len, vec_capacity, IfOk};
ghost use Rattle.cox_base.specs.IntegerMatrix.{integer_matrix};
ghost use Rattle.cox_base.specs.ShortLex.{normal_form};
ghost use Rattle.cox_context.specs.Inverses.{AreKeptInverses, AreInversesOfOthers};
ghost use Rattle.cox_context.specs.Numbers.{word_at};
ghost use Rattle.cox_context.specs.Numbering.{IsNumberOf};
ghost use Rattle.cox_context.specs.Rows.{IsCutBack};
ghost use Rattle.cox_context.specs.Shifts.{entry, AreRightShifts};

use crate::builder::push_row;
use crate::members::MAX_MEMBERS;
use crate::shifts::{LeftShifts, NO_MEMBER, cut_back, entry};
use std::alloc::{AllocError, Global};

/// The number of x^-1 for each member x, where it is a member.
pub(crate) fn inverses(
    alloc: Global,
    shifts: &LeftShifts,
    right: &[u32],
) -> Result<Vec<u32>, AllocError>
    requires size { length right.now ≡ length shifts.now.members * shifts.now.matrix.rank }
    requires right { AreRightShifts (integer_matrix shifts.now.matrix) shifts.now.members right.now }
    ensures size { IfOk result (λ table. length table.items ≡ length shifts.now.members) }
    ensures kept { IfOk result (λ table. AreKeptInverses (integer_matrix shifts.now.matrix) shifts.now.members table.items) }
{
    let _rank = shifts.rank();
    let count = shifts.members().len();
    let mut table = Vec::with_capacity(alloc, count as usize)?;
    for i in 0..count {
        let inverse = inverse_by_rest(shifts, right, table.as_slice(), i);
        table.push_reserved(inverse.unwrap_or(NO_MEMBER));
    }
    Ok(table)
}

/// Adds the inverse of the last member, for which there is room, to those of the others, if they are kept. Where it is a member, the last
/// one is its inverse.
pub(crate) fn push_inverse(table: &mut Vec<u32>, shifts: &LeftShifts, right: &[u32])
    requires others { AreInversesOfOthers (integer_matrix shifts.now.matrix) shifts.now.members table.old.items }
    requires room { vec_len table.old + 1 ≤ vec_capacity table.old }
    requires size { length right.now ≡ length shifts.now.members * shifts.now.matrix.rank }
    requires right { AreRightShifts (integer_matrix shifts.now.matrix) shifts.now.members right.now }
    ensures size { 0 < length table.old.items → length table.new.items ≡ length shifts.now.members }
    ensures kept { AreKeptInverses (integer_matrix shifts.now.matrix) shifts.now.members table.new.items }
{
    let _rank = shifts.rank();
    if table.is_empty() {
        return;
    }
    let last = shifts.members().len() - 1;
    let inverse = inverse_by_rest(shifts, right, table.as_slice(), last);
    push_row(table, 1, last, &[inverse.unwrap_or(NO_MEMBER)]);
}

/// The number of the inverse of a member, by that of the rest of its word: the inverse of s v is the inverse of v with s behind it.
fn inverse_by_rest(shifts: &LeftShifts, right: &[u32], table: &[u32], i: u32) -> Option<u32>
    requires member { i < length shifts.now.members }
    requires before { i ≤ length table.now }
    requires rest { (t r : ℕ) → r < i → word_at shifts.now.members i ≡ t ∷ word_at shifts.now.members r
        → IsNumberOf shifts.now.members (normal_form (integer_matrix shifts.now.matrix) (reverse (word_at shifts.now.members r)))
        (entry 1 table.now 1 r) }
    requires size { length right.now ≡ length shifts.now.members * shifts.now.matrix.rank }
    requires right { AreRightShifts (integer_matrix shifts.now.matrix) shifts.now.members right.now }
    ensures { IsNumberOf shifts.now.members (normal_form (integer_matrix shifts.now.matrix) (reverse (word_at shifts.now.members i)))
        result }
{
    let rank = shifts.rank();
    if i == 0 {
        return Some(0);
    }
    let link = shifts.members().link(i);
    let inverse = kept_inverse(table, link.rest)?;
    entry(right, rank, link.first, inverse)
}

/// The entry of a member.
pub(crate) fn kept_inverse(table: &[u32], i: u32) -> Option<u32>
    requires few { i ≤ MAX_MEMBERS }
    requires within { i < length table.now }
    ensures { result ≡ entry 1 table.now 1 i }
{
    entry(table, 1, 1, i)
}

/// Only the inverses of the first members, so many, as far as they are among these; and none if none are kept.
pub(crate) fn cut_back_inverses(table: &mut Vec<u32>, count: u32)
    requires few { count ≤ MAX_MEMBERS }
    requires within { 0 < length table.old.items → count ≤ length table.old.items }
    ensures empty { length table.old.items ≡ 0 → length table.new.items ≡ 0 }
    ensures cut { 0 < length table.old.items → IsCutBack (count * 1) count table.old.items table.new.items }
{
    if !table.is_empty() {
        cut_back(table, 1, count);
    }
}
