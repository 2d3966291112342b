//! How words are read.
ghost use Rattle.std.specs.Prelude.{◌≡◌, ◌≢◌, ◌+◌, ◌<◌, ◌≤◌, ◌^◌, ◌⊎◌, ℕ, [], ◌∷◌, length, MatchOption, IfSome, decimal};
ghost use Rattle.cox_base.specs.WordText.{is_e, letter_of};
ghost use Rattle.cox_base.specs.WordReading.{ReadsWord, ReadsPieces};

use crate::limits::{MAX_LETTERS, MAX_RANK};
use crate::pieces::{Pieces, piece_count, pieces_in};
use crate::spelling::separator;
use crate::word::{Word, WordFault};

/// Reads a word: `e` alone is the empty word, else each piece of the text is a letter in decimal, 1 to the rank. In a group of rank 1 to 9
/// the pieces are the bytes; in one of a greater rank they stand before, between and after the dots. The word need not be reduced.
///
/// A text of more than `MAX_LETTERS` pieces is `Long`, whatever they are; else `Letter` tells the place of the first byte of the first
/// piece that is no letter. An empty piece has the place of the dot behind it, or the place behind the text. For example `212` in rank 2 is
/// the word 2, 1, 2; `213` there has the fault `Letter(3)`, and `ee` has `Letter(1)`. In rank 10 `9.10.9` is the word 9, 10, 9; `9.09` has
/// the fault `Letter(3)`, and so has `1..2`. A text of no bytes is the empty word in rank 1 to 9, and has the fault `Letter(1)` in a
/// greater one.
pub fn read_word(text: &[u8], rank: u32) -> Result<Word, WordFault>
    requires rank { rank ≤ MAX_RANK }
    requires size { length text.now + 1 < 2 ^ 32 }
    ensures { ReadsWord result text.now rank }
{
    let count = piece_count(text, rank);
    if count > MAX_LETTERS {
        return Err(WordFault::Long(count as u32));
    }
    if is_e(text) {
        return Ok(Word::new());
    }
    read_pieces(pieces_in(text, rank), rank)
}

/// Reads the letters of a word, one in each piece.
fn read_pieces(mut pieces: Pieces, rank: u32) -> Result<Word, WordFault>
    requires rank { rank ≤ MAX_RANK }
    requires room { length pieces ≤ MAX_LETTERS }
    ensures { ReadsPieces result pieces.entry rank }
{
    let gap = separator(rank).len() as u32;
    let mut word = Word::new();
    let mut place = 1;
    'pieces: while let Some(piece) = pieces.take_next() {
        let Some(letter) = letter_of(piece, rank) else {
            return Err(WordFault::Letter(place));
        };
        word.push(letter);
        place += piece.len() as u32 + gap;
    }
    Ok(word)
}

/// Whether a text is `e` alone.
fn is_e(text: &[u8]) -> bool
    ensures { result ≡ is_e text.now }
{
    text == b"e".as_slice()
}

/// The letter that a piece names.
fn letter_of(piece: &[u8], rank: u32) -> Option<u8>
    requires { rank ≤ MAX_RANK }
    ensures letter { result ≡ letter_of rank piece.now }
    ensures short { IfSome result (λ _. length piece.now ≤ 2) }
{
    let Some(value) = small_numeral(piece) else {
        return None;
    };
    if value == 0 || u32::from(value) > rank {
        return None;
    }
    Some(value)
}

/// The value of a text of one or two decimal digits without a leading zero.
fn small_numeral(text: &[u8]) -> Option<u8>
    ensures { MatchOption result ((n : ℕ) → n < 100 → decimal n ≢ text.now) (λ n. (n < 100) × (decimal n ≡ text.now)) }
{
    match *text {
        [ones] => one_digit(ones),
        [tens, ones] => two_digits(tens, ones),
        _ => None,
    }
}

/// The value of one decimal digit.
fn one_digit(ones: u8) -> Option<u8>
    ensures { MatchOption result ((n : ℕ) → n < 100 → decimal n ≢ ones ∷ []) (λ n. (n < 100) × (decimal n ≡ ones ∷ [])) }
{
    digit(ones)
}

/// The value of two decimal digits, the first of them not 0.
fn two_digits(tens: u8, ones: u8) -> Option<u8>
    ensures { MatchOption result ((n : ℕ) → n < 100 → decimal n ≢ tens ∷ ones ∷ []) (λ n. (n < 100) × (decimal n ≡ tens ∷ ones ∷ [])) }
{
    let Some(high) = digit(tens) else {
        return None;
    };
    let Some(low) = digit(ones) else {
        return None;
    };
    if high == 0 {
        return None;
    }
    Some(10 * high + low)
}

/// The value of a decimal digit.
fn digit(byte: u8) -> Option<u8>
    ensures { MatchOption result (byte < 48 ⊎ 57 < byte) (λ value. (value < 10) × (byte ≡ 48 + value)) }
{
    match byte {
        b'0'..=b'9' => Some(byte - b'0'),
        _ => None,
    }
}
