//! What stands in a line: a fixed text, a byte, a number, a word.
ghost use Rattle.std.specs.Prelude.{◌≡◌, ◌≢◌, ◌==◌, ◌≤◌, ◌<◌, ◌^◌, ℕ, List, ◌++◌, length, take, drop, decimal, MatchOption};
ghost use Rattle.std.specs.List.{position_or_len};
ghost use Rattle.cox_base.specs.WordText.{word_text};
ghost use Rattle.cox_certtext.specs.Certificate.{IsShortWord};

use cox_base::{MAX_RANK, Word, read_word};
use cox_tokens::{LINE_LIMIT, MAX_DIGITS, read_number};

/// What stands behind this text, if the line begins with it.
pub(crate) fn behind<'a>(line: &'a [u8], prefix: &[u8]) -> Option<&'a [u8]>
    ensures { MatchOption result ((rest : List ℕ) → line.now ≢ prefix.now ++ rest) (λ rest. line.now ≡ prefix.now ++ rest.now) }
{
    line.strip_prefix(prefix)
}

/// How many bytes stand before the first one that is this.
fn place_of(text: &[u8], byte: u8) -> usize
    ensures count { result ≡ position_or_len (λ other. other == byte) text.now }
    ensures within { result ≤ length text.now }
{
    text.iter().take_while(|&&other| other != byte).count()
}

/// What stands before the first byte that is this, and what stands from there on.
pub(crate) fn cut(text: &[u8], byte: u8) -> (&[u8], &[u8])
    ensures front { result.0.now ≡ take (position_or_len (λ other. other == byte) text.now) text.now }
    ensures back { result.1.now ≡ drop (position_or_len (λ other. other == byte) text.now) text.now }
{
    text.split_at(place_of(text, byte))
}

/// The number above 0, of at most `MAX_DIGITS` digits, that is written so.
pub(crate) fn read_decimal(text: &[u8]) -> Option<u32>
    ensures { MatchOption result
        ((n : ℕ) → 1 ≤ n → n < 10 ^ MAX_DIGITS → decimal n ≢ text.now)
        (λ n. (1 ≤ n) × (n < 10 ^ MAX_DIGITS) × (decimal n ≡ text.now)) }
{
    if text.is_empty() || text[0] == b'0' {
        return None;
    }
    read_number(text)
}

/// The word that is written so. No word is written with no bytes: the empty word is `e`.
pub(crate) fn read_letters(text: &[u8], rank: u32) -> Option<Word>
    requires rank { rank ≤ MAX_RANK }
    requires size { length text.now ≤ LINE_LIMIT }
    ensures { MatchOption result
        ((w : List ℕ) → IsShortWord rank w → word_text rank w ≢ text.now)
        (λ w. IsShortWord rank w.items × (word_text rank w.items ≡ text.now)) }
{
    if text.is_empty() {
        return None;
    }
    match read_word(text, rank) {
        Ok(word) => Some(word),
        Err(_) => None,
    }
}
