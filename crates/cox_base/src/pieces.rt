//! The pieces of a text, one for each letter of a word.
ghost use Rattle.std.specs.Prelude.{◌≡◌, ℕ, ◌+◌, ◌≤◌, [], ◌∷◌, length, count_by, MatchOption};
ghost use Rattle.std.specs.List.{position_or_len, slice_split};
ghost use Rattle.std.specs.Option.{option_map_or};
ghost use Rattle.cox_base.specs.WordText.{is_dot, pieces_of};

use crate::spelling::has_digits;
use std::marker::Model;

/// The pieces of a text that are not taken yet. Contracts see the list of them.
#[derive(Drop)]
pub struct Pieces<'a> {
    rank: u32,
    // None behind the last piece
    rest: Option<&'a [u8]>,
}

impl<'a> Model for Pieces<'a> {
    ghost use Rattle.std.specs.Prelude.{ℕ, [], List};
    ghost use Rattle.std.specs.Option.{option_map_or};
    ghost use Rattle.cox_base.specs.WordText.{pieces_of};

    ghost Value = { List (List ℕ) };

    ghost view = { λ pieces. option_map_or (λ rest. pieces_of pieces.rank rest.now) pieces.rest [] };
}

/// The pieces of a text.
pub fn pieces_in(text: &[u8], rank: u32) -> Pieces<'_>
    ensures { result ≡ pieces_of rank text.now }
{
    Pieces {
        rank,
        rest: Some(text),
    }
}

impl<'a> Pieces<'a> {
    /// Takes the next piece; `None` where none is left.
    pub fn take_next(&mut self) -> Option<&'a [u8]>
        ensures { MatchOption result (self.old ≡ []) (λ piece. self.old ≡ piece.now ∷ self.new) }
    {
        let rest = self.rest?;
        if has_digits(self.rank) {
            let (piece, behind) = first_byte(rest)?;
            self.rest = Some(behind);
            return Some(piece);
        }
        let (piece, behind) = before_dot(rest);
        self.rest = behind;
        Some(piece)
    }
}

/// How many pieces a text has.
pub fn piece_count(text: &[u8], rank: u32) -> usize
    ensures count { result ≡ length (pieces_of rank text.now) }
    ensures small { result ≤ length text.now + 1 }
{
    if has_digits(rank) {
        return text.len();
    }
    dot_count(text) + 1
}

/// How many dots there are.
fn dot_count(bytes: &[u8]) -> usize
    ensures { result ≡ count_by is_dot bytes.now }
{
    bytes.iter().filter(|&&byte| byte == b'.').count()
}

/// How many bytes stand before the first dot.
fn piece_len(bytes: &[u8]) -> usize
    ensures count { result ≡ position_or_len is_dot bytes.now }
    ensures within { result ≤ length bytes.now }
{
    bytes.iter().take_while(|&&byte| byte != b'.').count()
}

/// The first byte, and those behind it.
fn first_byte(bytes: &[u8]) -> Option<(&[u8], &[u8])>
    ensures { MatchOption result (bytes.now ≡ []) (λ parts. (byte : ℕ) × (parts.0.now ≡ byte ∷ []) × (bytes.now ≡ byte ∷ parts.1.now)) }
{
    if bytes.is_empty() {
        return None;
    }
    Some(bytes.split_at(1))
}

/// What stands before the first dot, and what stands behind it, if there is one.
fn before_dot(bytes: &[u8]) -> (&[u8], Option<&[u8]>)
    ensures { slice_split is_dot bytes.now ≡ result.0.now ∷ option_map_or (λ behind. slice_split is_dot behind.now) result.1 [] }
{
    let (piece, rest) = bytes.split_at(piece_len(bytes));
    match rest.split_first() {
        None => (piece, None),
        Some((_, behind)) => (piece, Some(behind)),
    }
}
