//! Whether an element y that is not among the members yet is below the top of an interval, by the shorter elements t y.
ghost use Rattle.std.specs.Prelude.{◌≡◌, ℕ, List, ◌<◌, ◌≤◌, ◌↔◌, IsTrue, IfSome, length, Contains, None};
ghost use Rattle.cox_base.specs.Matrix.{IsLetter, IsWord};
ghost use Rattle.cox_base.specs.IntegerMatrix.{integer_matrix};
ghost use Rattle.cox_base.specs.Reduced.{IsReduced};
ghost use Rattle.cox_base.specs.Descents.{IsLeftDescent};
ghost use Rattle.cox_base.specs.Bruhat.{IsBelow};
ghost use Rattle.cox_context.specs.Shifts.{entry, IsLower};
ghost use Rattle.cox_context.specs.Growth.{AreLower, AreBelowTop, remaining_word};
ghost use Rattle.cox_context.specs.WantedMembers.{IsTop, IsBelowTop};

use crate::scope::Scope;
use crate::shifts::{LeftShifts, entry};
use cox_base::{MAX_RANK, Word};

/// Whether y is below the top, where there is one, for an element y other than the identity with these elements t y.
pub(crate) fn is_below_top(scope: &Scope, shifts: &LeftShifts, lower: &[u32]) -> bool
    requires group { scope.now.group ≡ shifts.now.matrix }
    requires top { IsTop (integer_matrix shifts.now.matrix) scope.now.top }
    requires below { AreBelowTop (integer_matrix shifts.now.matrix) scope.now.top shifts.now.members }
    requires size { shifts.now.matrix.rank ≤ length lower.now }
    requires inside { (t k : ℕ) → IsLetter shifts.now.matrix.rank t → entry shifts.now.matrix.rank lower.now t 0 ≡ Some k
        → k < length shifts.now.members }
    ensures { (y : List ℕ) (s : ℕ) → IsLeftDescent (integer_matrix shifts.now.matrix) y s
        → AreLower (integer_matrix shifts.now.matrix) shifts.now.members y lower.now
        → (IsTrue result ↔ IsBelowTop (integer_matrix shifts.now.matrix) scope.now.top y) }
{
    match &scope.top {
        None => true,
        Some(top) => {
            shares_descent(shifts.rank(), scope.descents.as_slice(), lower)
                || lifts(shifts, lower, top)
        }
    }
}

/// Whether one of these letters shortens y.
fn shares_descent(rank: u32, descents: &[u8], lower: &[u32]) -> bool
    requires limit { rank ≤ MAX_RANK }
    requires letters { IsWord rank descents.now }
    requires size { rank ≤ length lower.now }
    ensures { IsTrue result → (t k : ℕ) × Contains descents.now t × (entry rank lower.now t 0 ≡ Some k) }
{
    for &t in descents {
        if entry(lower, rank, t, 0).is_some() {
            return true;
        }
    }
    false
}

/// Whether y is below the element of a reduced word: by lifting (Humphreys 5.9), each letter of it that shortens what is left of y is taken
/// off.
fn lifts(shifts: &LeftShifts, lower: &[u32], top: &Word) -> bool
    requires size { shifts.now.matrix.rank ≤ length lower.now }
    requires inside { (t k : ℕ) → IsLetter shifts.now.matrix.rank t → entry shifts.now.matrix.rank lower.now t 0 ≡ Some k
        → k < length shifts.now.members }
    requires letters { IsWord shifts.now.matrix.rank top.now.items }
    requires reduced { IsReduced (integer_matrix shifts.now.matrix) top.now.items }
    ensures { (y : List ℕ) (s : ℕ) → IsLeftDescent (integer_matrix shifts.now.matrix) y s
        → AreLower (integer_matrix shifts.now.matrix) shifts.now.members y lower.now
        → (IsTrue result ↔ IsBelow (integer_matrix shifts.now.matrix) y top.now.items) }
{
    let _rank = shifts.rank();
    let mut at = None;
    for &t in top.as_slice() {
        at = shorter_left(shifts, lower, at, t).or(at);
    }
    at == Some(0)
}

/// The number of what is left of y after t is taken off, where t shortens it; y itself is left where no member is given.
fn shorter_left(shifts: &LeftShifts, lower: &[u32], at: Option<u32>, t: u8) -> Option<u32>
    requires size { shifts.now.matrix.rank ≤ length lower.now }
    requires inside { (t k : ℕ) → IsLetter shifts.now.matrix.rank t → entry shifts.now.matrix.rank lower.now t 0 ≡ Some k
        → k < length shifts.now.members }
    requires member { IfSome at (λ i. i < length shifts.now.members) }
    requires letter { IsLetter shifts.now.matrix.rank t }
    ensures lower { (y : List ℕ) → AreLower (integer_matrix shifts.now.matrix) shifts.now.members y lower.now
        → IsLower (integer_matrix shifts.now.matrix) shifts.now.members (remaining_word shifts.now.members y at) t result }
    ensures member { IfSome result (λ k. k < length shifts.now.members) }
{
    match at {
        None => entry(lower, shifts.rank(), t, 0),
        Some(i) => shifts.lower(t, i),
    }
}
