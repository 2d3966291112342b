//! The shorter elements t y of an element y = s x that is one letter longer than the member x, for each letter t that shortens y.
//!
//! Let t be another letter than s, and m the order of s t. Then t shortens y exactly where m is finite and the first m - 1 steps from x by
//! t, s, t, .. all shorten. The next m - 1 steps lead back up on the other side, to t y. So all is read off the shifts of members.
ghost use Rattle.std.specs.Prelude.{◌≡◌, ℕ, ◌<◌, ◌≤◌, ◌∷◌, length, Contains, IfOk, OnErr, IfSome, IfNone, None, Some};
ghost use Rattle.cox_base.specs.Matrix.{IsLetter};
ghost use Rattle.cox_base.specs.IntegerMatrix.{integer_matrix};
ghost use Rattle.cox_base.specs.ShortLex.{normal_form};
ghost use Rattle.cox_context.specs.Numbers.{word_at};
ghost use Rattle.cox_context.specs.Shifts.{entry, IsLower};
ghost use Rattle.cox_context.specs.Growth.{AreLower, IsOutside};

use crate::shifts::{LeftShifts, NO_MEMBER, entry};
use cox_base::MAX_RANK;

/// An element below y is not among the members.
#[derive(Clone, Copy)]
pub(crate) struct Outside;

/// The numbers of the t y, in the order of the letters, for y = s x with the member x of the number i.
pub(crate) fn lower_members(shifts: &LeftShifts, s: u8, i: u32) -> Result<[u32; MAX_RANK], Outside>
    requires letter { IsLetter shifts.now.matrix.rank s }
    requires member { i < length shifts.now.members }
    requires new { ¬ (Contains shifts.now.members (normal_form (integer_matrix shifts.now.matrix) (s ∷ word_at shifts.now.members i))) }
    ensures lower { IfOk result (AreLower (integer_matrix shifts.now.matrix) shifts.now.members (s ∷ word_at shifts.now.members i)) }
    ensures outside { OnErr result (IsOutside (integer_matrix shifts.now.matrix) shifts.now.members (s ∷ word_at shifts.now.members i)
        (length (word_at shifts.now.members i))) }
{
    let mut lower = [NO_MEMBER; MAX_RANK];
    for t in 1..shifts.rank() as u8 + 1 {
        if let Some(k) = lower_member(shifts, s, t, i)? {
            lower[t as usize - 1] = k;
        }
    }
    Ok(lower)
}

/// The number of t y, where t shortens y.
fn lower_member(shifts: &LeftShifts, s: u8, t: u8, i: u32) -> Result<Option<u32>, Outside>
    requires letter_s { IsLetter shifts.now.matrix.rank s }
    requires letter_t { IsLetter shifts.now.matrix.rank t }
    requires member { i < length shifts.now.members }
    requires new { ¬ (Contains shifts.now.members (normal_form (integer_matrix shifts.now.matrix) (s ∷ word_at shifts.now.members i))) }
    ensures lower { IfOk result (IsLower (integer_matrix shifts.now.matrix) shifts.now.members (s ∷ word_at shifts.now.members i) t) }
    ensures outside { OnErr result (IsOutside (integer_matrix shifts.now.matrix) shifts.now.members (s ∷ word_at shifts.now.members i)
        (length (word_at shifts.now.members i))) }
{
    let _rank = shifts.rank();
    if t == s {
        return Ok(Some(i));
    }
    walk(shifts, s, t, i)
}

/// The number of t y, where t shortens y and is not s.
fn walk(shifts: &LeftShifts, s: u8, t: u8, i: u32) -> Result<Option<u32>, Outside>
    requires letter_s { IsLetter shifts.now.matrix.rank s }
    requires letter_t { IsLetter shifts.now.matrix.rank t }
    requires apart { ¬ (t ≡ s) }
    requires member { i < length shifts.now.members }
    requires new { ¬ (Contains shifts.now.members (normal_form (integer_matrix shifts.now.matrix) (s ∷ word_at shifts.now.members i))) }
    ensures lower { IfOk result (IsLower (integer_matrix shifts.now.matrix) shifts.now.members (s ∷ word_at shifts.now.members i) t) }
    ensures outside { OnErr result (IsOutside (integer_matrix shifts.now.matrix) shifts.now.members (s ∷ word_at shifts.now.members i)
        (length (word_at shifts.now.members i))) }
{
    let _rank = shifts.rank();
    let order = shifts.label(t, s);
    if order == 0 {
        return Ok(None);
    }
    let mut at = i;
    let mut letter = t;
    let mut other = s;
    'down: for _down in 1..order {
        let Some(lower) = shifts.lower(letter, at) else {
            return Ok(None);
        };
        at = lower;
        let next = other;
        other = letter;
        letter = next;
    }
    'up: for _up in 1..order {
        let Some(higher) = shifts.shift(letter, at) else {
            return Err(Outside);
        };
        at = higher;
        let next = other;
        other = letter;
        letter = next;
    }
    Ok(Some(at))
}

/// The least letter that shortens an element, and the number of what it leads to.
#[derive(Clone, Copy)]
pub(crate) struct FirstLower {
    pub(crate) letter: u8,
    pub(crate) rest: u32,
}

/// The least letter with an entry.
pub(crate) fn first_lower(lower: &[u32], rank: u32) -> Option<FirstLower>
    requires limit { rank ≤ MAX_RANK }
    requires size { rank ≤ length lower.now }
    ensures letter { IfSome result (λ f. IsLetter rank f.letter) }
    ensures found { IfSome result (λ f. entry rank lower.now f.letter 0 ≡ Some f.rest) }
    ensures least { IfSome result (λ f. (t : ℕ) → IsLetter rank t → t < f.letter → entry rank lower.now t 0 ≡ None) }
    ensures none { IfNone result ((t : ℕ) → IsLetter rank t → entry rank lower.now t 0 ≡ None) }
{
    for t in 1..rank as u8 + 1 {
        if let Some(k) = entry(lower, rank, t, 0) {
            return Some(FirstLower { letter: t, rest: k });
        }
    }
    None
}
