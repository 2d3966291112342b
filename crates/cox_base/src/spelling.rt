//! How letters stand in a written word.
ghost use Rattle.std.specs.Prelude.{◌≡◌, ◌≤◌, length};
ghost use Rattle.cox_base.specs.WordText.{has_digits, separator};

use crate::limits::MAX_DIGIT_RANK;

/// Whether each letter of a group of this rank is one digit.
pub(crate) fn has_digits(rank: u32) -> bool
    ensures { result ≡ has_digits rank }
{
    rank <= MAX_DIGIT_RANK as u32
}

/// What stands between two letters of a word: nothing in a group of rank 1 to 9, else a dot.
pub fn separator(rank: u32) -> &'static [u8]
    ensures text { result.now ≡ separator rank }
    ensures short { length result.now ≤ 1 }
{
    if has_digits(rank) { b"" } else { b"." }
}
