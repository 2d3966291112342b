//! The answers on all polynomials of a row, or those at its extremal elements.
ghost use Rattle.std.specs.Prelude.{◌≡◌, ◌<◌, ℕ, List, All, length, IfOk};
ghost use Rattle.cox_base.specs.Admissible.{IsCoxeterMatrix};
ghost use Rattle.cox_base.specs.IntegerMatrix.{integer_matrix};
ghost use Rattle.cox_base.specs.ShortLex.{normal_form};
ghost use Rattle.cox_base.specs.Bruhat.{IsBelow};
ghost use Rattle.cox_hecke.specs.Family.{Family};
ghost use Rattle.cox_hecke.specs.Row.{IsRow};
ghost use Rattle.cox_base.specs.Members.{IsInInterval};
ghost use Rattle.cox_base.specs.SortedList.{IsListOf};
ghost use Rattle.cox_context.specs.Numbers.{word_at};
ghost use Rattle.cox_rows.specs.Holding.{HasRow};
ghost use Rattle.cox_poly.specs.Puts.{Puts};
ghost use Rattle.cox_replies.specs.Listed.{IsOfRow};
ghost use Rattle.cox_replies.specs.RowReply.{pairs_text, IsExtremalBelow};
ghost use Rattle.cox_replies.specs.Putting.{PutsSome, words_at};

use crate::order::put_in_order;
use cox_print::{NoMemory, put_count, put_next_pair};
use cox_row::extremal_members;
use cox_rows::Rows;
use std::alloc::Global;

/// Puts the list of the members x <= w, each with P(x,w), for the member w with the number i.
pub fn put_all_pairs(out: &mut Vec<u8>, rows: &Rows, i: u32) -> Result<(), NoMemory>
    requires group { IsCoxeterMatrix rows.now.elements.matrix }
    requires member { i < length rows.now.elements.members }
    requires there { HasRow rows.now i }
    ensures { (w : List ℕ) → word_at rows.now.elements.members i ≡ normal_form (integer_matrix rows.now.elements.matrix) w
        → PutsSome result (IsOfRow (integer_matrix rows.now.elements.matrix) w (IsInInterval (integer_matrix rows.now.elements.matrix) w)
        (pairs_text (integer_matrix rows.now.elements.matrix) w)) out.old.items out.new.items }
{
    let below = members_below(*out.allocator(), rows, i)?;
    put_pairs(out, rows, i, below.as_slice())
}

/// Puts the list of the extremal members x <= w, each with P(x,w), for the member w with the number i.
pub fn put_extremal_pairs(out: &mut Vec<u8>, rows: &Rows, i: u32) -> Result<(), NoMemory>
    requires group { IsCoxeterMatrix rows.now.elements.matrix }
    requires member { i < length rows.now.elements.members }
    requires there { HasRow rows.now i }
    ensures { (w : List ℕ) → word_at rows.now.elements.members i ≡ normal_form (integer_matrix rows.now.elements.matrix) w
        → PutsSome result (IsOfRow (integer_matrix rows.now.elements.matrix) w (IsExtremalBelow (integer_matrix rows.now.elements.matrix) w)
        (pairs_text (integer_matrix rows.now.elements.matrix) w)) out.old.items out.new.items }
{
    prove!(rows.context().len() > 0);
    let Some(row) = rows.row(i) else {
        unreachable!();
    };
    let mut extremal = extremal_members(*out.allocator(), rows.context(), row, i)?;
    put_in_order(rows.context(), &mut extremal);
    put_pairs(out, rows, i, extremal.as_slice())
}

/// Puts the list of the members with these numbers, each with its polynomial in the row of the member with the number i.
pub fn put_pairs(out: &mut Vec<u8>, rows: &Rows, i: u32, numbers: &[u32]) -> Result<(), NoMemory>
    requires group { IsCoxeterMatrix rows.now.elements.matrix }
    requires member { i < length rows.now.elements.members }
    requires there { HasRow rows.now i }
    requires members { All (λ x. x < length rows.now.elements.members) numbers.now }
    requires below { All (λ x. IsBelow (integer_matrix rows.now.elements.matrix) (word_at rows.now.elements.members x)
        (word_at rows.now.elements.members i)) numbers.now }
    ensures { (w : List ℕ) (p : Family) → word_at rows.now.elements.members i ≡ normal_form (integer_matrix rows.now.elements.matrix) w
        → IsRow (integer_matrix rows.now.elements.matrix) w p
        → Puts result (pairs_text (integer_matrix rows.now.elements.matrix) w p
        (words_at rows.now.elements.members numbers.now)) out.old.items out.new.items }
{
    let rank = rows.context().matrix().rank();
    prove!(rows.context().len() > 0);
    put_count(out, numbers.len())?;
    for &x in numbers {
        let Some(polynomial) = rows.polynomial(i, x) else {
            unreachable!();
        };
        put_next_pair(out, rank, &rows.context().word(x), &polynomial)?;
    }
    Ok(())
}

/// The numbers of the members x <= w in ShortLex order, for the member w with the number i.
pub fn members_below(alloc: Global, rows: &Rows, i: u32) -> Result<Vec<u32>, NoMemory>
    requires member { i < length rows.now.elements.members }
    ensures within { IfOk result (λ numbers. All (λ x. x < length rows.now.elements.members) numbers.items) }
    ensures below { IfOk result (λ numbers. All (λ x. IsBelow (integer_matrix rows.now.elements.matrix)
        (word_at rows.now.elements.members x) (word_at rows.now.elements.members i)) numbers.items) }
    ensures interval { (w : List ℕ) → word_at rows.now.elements.members i ≡ normal_form (integer_matrix rows.now.elements.matrix) w
        → IfOk result (λ numbers. IsListOf (IsInInterval (integer_matrix rows.now.elements.matrix) w)
        (words_at rows.now.elements.members numbers.items)) }
{
    let context = rows.context();
    prove!(context.len() > 0);
    let mut below = Vec::new(alloc);
    for x in 0..i + 1 {
        if context.below(x, i) {
            below.push(x)?;
        }
    }
    put_in_order(context, &mut below);
    Ok(below)
}
