//! The lines of a certificate behind the first, read. Each line is that of one thing at most.
ghost use Rattle.std.specs.Prelude.{◌≡◌, ◌≢◌, ◌≤◌, ◌<◌, ◌↔◌, ℕ, List, length, IsTrue, IfSome, IfNone, IfOk};
ghost use Rattle.cox_certtext.specs.Certificate.{IsShortWord, top_line, count_line, end_line};
ghost use Rattle.cox_cert.specs.LineReading.{ReadsPolynomial, ReadsEntry};

use crate::parts::{behind, cut, read_decimal, read_letters};
use cox_base::{MAX_RANK, Word};
use cox_certtext::{MAX_DEGREE, MAX_LISTED};
use cox_poly::Poly;
use cox_polyread::{TextFault, read_polynomial};
use cox_rowcheck::is_checkable;
use cox_tokens::LINE_LIMIT;
use std::alloc::{AllocError, Global};

/// What a line of the list gives.
#[derive(Drop)]
pub(crate) enum EntryLine {
    /// A word, and a polynomial that is small.
    Small(Word, Poly),
    /// A word, and a polynomial with a coefficient or a degree that is too large.
    Large(Word),
    /// Nothing: no entry is written so.
    Foreign,
}

/// The word behind `element `.
pub(crate) fn read_top(line: &[u8], rank: u32) -> Option<Word>
    requires rank { rank ≤ MAX_RANK }
    requires size { length line.now ≤ LINE_LIMIT }
    ensures top { IfSome result (λ w. IsShortWord rank w.items × (line.now ≡ top_line rank w.items)) }
    ensures none { IfNone result ((w : List ℕ) → IsShortWord rank w → line.now ≢ top_line rank w) }
{
    read_letters(behind(line, b"element ")?, rank)
}

/// The number behind `rows `, from 1 to `MAX_LISTED`.
pub(crate) fn read_count(line: &[u8]) -> Option<u32>
    ensures count { IfSome result (λ n. (1 ≤ n) × (n ≤ MAX_LISTED) × (line.now ≡ count_line n)) }
    ensures none { IfNone result ((n : ℕ) → 1 ≤ n → n ≤ MAX_LISTED → line.now ≢ count_line n) }
{
    let count = read_decimal(behind(line, b"rows ")?)?;
    if count <= MAX_LISTED as u32 {
        Some(count)
    } else {
        None
    }
}

/// The word and the polynomial that a line of the list gives, as `12:1+q`.
///
/// A polynomial is read whatever its size; where it is not small, the word alone is handed out.
pub(crate) fn read_entry(alloc: Global, line: &[u8], rank: u32) -> Result<EntryLine, AllocError>
    requires rank { rank ≤ MAX_RANK }
    requires size { length line.now ≤ LINE_LIMIT }
    ensures { IfOk result (λ entry. ReadsEntry entry line.now rank) }
{
    let (text, rest) = cut(line, b':');
    let Some(word) = read_letters(text, rank) else {
        return Ok(EntryLine::Foreign);
    };
    let Some((_, polynomial)) = rest.split_first() else {
        return Ok(EntryLine::Foreign);
    };
    entry_with(alloc, word, polynomial)
}

/// The entry of a word, with the polynomial that is written so.
fn entry_with(alloc: Global, word: Word, text: &[u8]) -> Result<EntryLine, AllocError>
    ensures { IfOk result (λ entry. ReadsPolynomial entry word text.now) }
{
    match read_polynomial(alloc, text, MAX_DEGREE) {
        Ok(p) if is_checkable(&p) => Ok(EntryLine::Small(word, p)),
        Ok(_) | Err(TextFault::TooLarge) => Ok(EntryLine::Large(word)),
        Err(TextFault::NotAPolynomial) => Ok(EntryLine::Foreign),
        Err(TextFault::NoMemory) => Err(AllocError),
    }
}

/// Whether a line is the last one, `end`.
pub(crate) fn is_end(line: &[u8]) -> bool
    ensures { IsTrue result ↔ (line.now ≡ end_line) }
{
    line == b"end".as_slice()
}
