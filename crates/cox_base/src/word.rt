//! Words, and their order.
ghost use Rattle.std.specs.Prelude.{◌≡◌};
ghost use Rattle.cox_base.specs.ShortLex.{shortlex_cmp};

use crate::copy::copy_of;
use crate::limits::MAX_LETTERS;
use arrayvec::ArrayVec;
use std::cmp::Ordering;
use thiserror::Error;

/// A word: letters, each from 1 to the rank of the group that is meant.
pub type Word = ArrayVec<u8, MAX_LETTERS>;

/// Why a text names no word.
#[derive(Clone, Copy, Debug, Drop, Eq, Error, PartialEq)]
pub enum WordFault {
    /// It has more than `MAX_LETTERS` pieces: this many.
    #[error("a word of {0} letters")]
    Long(u32),
    /// The piece that begins at this place, from 1, is the first that is no letter.
    #[error("the piece at {0} is no letter")]
    Letter(u32),
}

/// The ShortLex order: shorter words first, then by the first letter that differs. So 3 comes before 12, and 12 before 21.
pub fn shortlex(left: &Word, right: &Word) -> Ordering
    ensures { result ≡ shortlex_cmp left.now.items right.now.items }
{
    match left.len().cmp(&right.len()) {
        Ordering::Equal => left.as_slice().cmp(&right.as_slice()),
        order => order,
    }
}

/// The same word once more.
pub fn copy_word(word: &Word) -> Word
    ensures { result.items ≡ word.now.items }
{
    copy_of(word)
}
