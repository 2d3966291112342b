//! The table of right shifts, from that of left shifts.
ghost use Rattle.std.specs.Prelude.{◌≡◌, ℕ, ◌+◌, ◌-◌, ◌*◌, ◌<◌, ◌≤◌, ◌∷◌, ◌++◌, [], length, vec_len, vec_capacity, IfOk, OnOk};
ghost use Rattle.cox_base.specs.Matrix.{IsLetter};
ghost use Rattle.cox_base.specs.IntegerMatrix.{integer_matrix};
ghost use Rattle.cox_base.specs.ShortLex.{normal_form};
ghost use Rattle.cox_context.specs.Numbers.{word_at};
ghost use Rattle.cox_context.specs.Numbering.{IsNumberOf};
ghost use Rattle.cox_context.specs.Shifts.{entry, AreRightShifts, AreOfOthers};

use crate::builder;
use crate::shifts::{LeftShifts, NO_MEMBER, entry};
use cox_base::MAX_RANK;
use std::alloc::{AllocError, Global};

/// The number of x s for each member x and each letter s, where it is a member.
///
/// With the first letter t of x = t x' it is the left shift by t of the right shift of x', which was found before.
pub(crate) fn right_shifts(alloc: Global, shifts: &LeftShifts) -> Result<Vec<u32>, AllocError>
    ensures size { IfOk result (λ table. length table.items ≡ length shifts.now.members * shifts.now.matrix.rank) }
    ensures shifts { IfOk result (λ table. AreRightShifts (integer_matrix shifts.now.matrix) shifts.now.members table.items) }
{
    let mut table = Vec::new(alloc);
    for i in 0..shifts.members().len() {
        push_row(shifts, &mut table, i)?;
    }
    Ok(table)
}

/// Appends the entries of a member.
fn push_row(shifts: &LeftShifts, table: &mut Vec<u32>, i: u32) -> Result<(), AllocError>
    requires member { i < length shifts.now.members }
    requires size { length table.old.items ≡ i * shifts.now.matrix.rank }
    requires shifts { AreRightShifts (integer_matrix shifts.now.matrix) shifts.now.members table.old.items }
    ensures size { OnOk result (length table.new.items ≡ (i + 1) * shifts.now.matrix.rank) }
    ensures shifts { OnOk result (AreRightShifts (integer_matrix shifts.now.matrix) shifts.now.members table.new.items) }
{
    let rank = shifts.rank();
    for s in 1..rank as u8 + 1 {
        let shift = right_shift(shifts, table.as_slice(), s, i);
        table.push(shift.unwrap_or(NO_MEMBER))?;
    }
    Ok(())
}

/// The right shift of a member, by that of the rest of its word.
fn right_shift(shifts: &LeftShifts, right: &[u32], s: u8, i: u32) -> Option<u32>
    requires member { i < length shifts.now.members }
    requires letter { IsLetter shifts.now.matrix.rank s }
    requires before { i * shifts.now.matrix.rank ≤ length right.now }
    requires rest { (t r : ℕ) → r < i → word_at shifts.now.members i ≡ t ∷ word_at shifts.now.members r
        → IsNumberOf shifts.now.members (normal_form (integer_matrix shifts.now.matrix) (word_at shifts.now.members r ++ s ∷ []))
        (entry shifts.now.matrix.rank right.now s r) }
    ensures { IsNumberOf shifts.now.members (normal_form (integer_matrix shifts.now.matrix) (word_at shifts.now.members i ++ s ∷ []))
        result }
{
    let rank = shifts.rank();
    if i == 0 {
        return shifts.shift(s, i);
    }
    let link = shifts.members().link(i);
    let shifted = entry(right, rank, s, link.rest)?;
    shifts.shift(link.first, shifted)
}

/// Adds the row of the last member, for which there is room, to those of the others: its right shifts, each of which is noted at both
/// members.
pub(crate) fn push_last_row(table: &mut Vec<u32>, shifts: &LeftShifts)
    requires some { 1 < length shifts.now.members }
    requires others { AreOfOthers (integer_matrix shifts.now.matrix) shifts.now.members table.old.items }
    requires room { vec_len table.old + shifts.now.matrix.rank ≤ vec_capacity table.old }
    ensures size { length table.new.items ≡ length shifts.now.members * shifts.now.matrix.rank }
    ensures shifts { AreRightShifts (integer_matrix shifts.now.matrix) shifts.now.members table.new.items }
{
    let rank = shifts.rank();
    let last = shifts.members().len() - 1;
    let row = last_right_shifts(shifts, table.as_slice(), last);
    builder::push_row(table, rank, last, &row);
}

/// The right shifts of the last member, in the order of the letters, by those that the other members had before it came.
fn last_right_shifts(shifts: &LeftShifts, right: &[u32], i: u32) -> [u32; MAX_RANK]
    requires some { 0 < i }
    requires last { i + 1 ≡ length shifts.now.members }
    requires right { AreOfOthers (integer_matrix shifts.now.matrix) shifts.now.members right.now }
    ensures size { shifts.now.matrix.rank ≤ length result }
    ensures each { (s : ℕ) → IsLetter shifts.now.matrix.rank s → IsNumberOf shifts.now.members
        (normal_form (integer_matrix shifts.now.matrix) (word_at shifts.now.members i ++ s ∷ []))
        (entry shifts.now.matrix.rank result s 0) }
{
    let mut row = [NO_MEMBER; MAX_RANK];
    for s in 1..shifts.rank() as u8 + 1 {
        if let Some(k) = last_right_shift(shifts, right, s, i) {
            row[s as usize - 1] = k;
        }
    }
    row
}

/// The right shift of the last member z = t x: where x s is a member, z s is the left shift of that by t. It is x itself where x s is z.
fn last_right_shift(shifts: &LeftShifts, right: &[u32], s: u8, i: u32) -> Option<u32>
    requires some { 0 < i }
    requires last { i + 1 ≡ length shifts.now.members }
    requires letter { IsLetter shifts.now.matrix.rank s }
    requires right { AreOfOthers (integer_matrix shifts.now.matrix) shifts.now.members right.now }
    ensures { IsNumberOf shifts.now.members (normal_form (integer_matrix shifts.now.matrix) (word_at shifts.now.members i ++ s ∷ []))
        result }
{
    let _rank = shifts.rank();
    let link = shifts.members().link(i);
    let shifted = right_shift(shifts, right, s, link.rest)?;
    shifts.shift(link.first, shifted)
}
