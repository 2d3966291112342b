//! The place of a number in a list that rises.
ghost use Rattle.std.specs.Prelude.{◌≡◌, ◌≢◌, ℕ, ◌<◌, ◌≤◌, length, IfSome, IfNone};
ghost use Rattle.cox_row.specs.Rising.{number_at, AreRising};

/// The place of a number in a list that rises, if it is there.
///
/// Which half is left is not known before, so no step of the search has a branch on it.
pub(crate) fn place_of_number(numbers: &[u32], x: u32) -> Option<usize>
    requires rising { AreRising numbers.now }
    ensures within { IfSome result (λ k. k < length numbers.now) }
    ensures place { IfSome result (λ k. number_at numbers.now k ≡ x) }
    ensures none { IfNone result ((k : ℕ) → k < length numbers.now → number_at numbers.now k ≢ x) }
{
    let mut size = numbers.len();
    if size == 0 {
        return None;
    }
    let mut start = 0;
    while size > 1 {
        let half = size / 2;
        start += half * not_above(numbers[start + half], x);
        size -= half;
    }
    if numbers[start] == x {
        Some(start)
    } else {
        None
    }
}

/// 1 where a number is at most another, else 0; it takes no branch.
fn not_above(number: u32, other: u32) -> usize
    ensures at_most { number ≤ other → result ≡ 1 }
    ensures above { other < number → result ≡ 0 }
{
    (((1 << 32) + u64::from(other) - u64::from(number)) / (1 << 32)) as usize
}
