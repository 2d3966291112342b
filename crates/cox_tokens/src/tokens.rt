//! The tokens of a line.
ghost use Rattle.std.specs.Prelude.{◌≡◌, ◌≢◌, ◌==◌, ◌+◌, ◌∷◌, [], ◌<◌, ◌≤◌, ◌^◌, length, MatchOption, IfSome};
ghost use Rattle.std.specs.List.{prefix_len, position_or_len};
ghost use Rattle.cox_tokens.specs.Tokens.{is_space, tokens_of};

use std::marker::Model;

/// The tokens of a part of a line that are not taken yet. Contracts see the list of them.
#[derive(Drop)]
pub struct Tokens<'a> {
    rest: &'a [u8],
}

impl<'a> Model for Tokens<'a> {
    ghost use Rattle.std.specs.Prelude.{ℕ, ◌+◌, ◌<◌, ◌^◌, List, length};
    ghost use Rattle.cox_tokens.specs.Tokens.{tokens_of};

    ghost Value = { List (List ℕ) };

    ghost view = { λ tokens. tokens_of tokens.rest.now };

    ghost invariant = { λ tokens. length tokens.rest.now + 1 < 2 ^ 32 };
}

/// The tokens of a part of a line.
pub fn tokens_in(part: &[u8]) -> Tokens<'_>
    requires { length part.now + 1 < 2 ^ 32 }
    ensures { result ≡ tokens_of part.now }
{
    Tokens { rest: part }
}

/// The first token of a line, and what stands behind it.
pub fn first_token(line: &[u8]) -> Option<(&[u8], &[u8])>
    ensures tokens { MatchOption result (tokens_of line.now ≡ []) (λ parts. tokens_of line.now ≡ parts.0.now ∷ tokens_of parts.1.now) }
    ensures sizes { IfSome result (λ parts. (1 ≤ length parts.0.now) × (length parts.0.now + length parts.1.now ≤ length line.now)) }
{
    let (_, rest) = line.split_at(spaces_before(line));
    if rest.is_empty() {
        return None;
    }
    Some(rest.split_at(token_len(rest)))
}

impl<'a> Tokens<'a> {
    /// Takes the next token.
    pub fn take_next(&mut self) -> Option<&'a [u8]>
        ensures taken { MatchOption result (self.old ≡ []) (λ token. self.old ≡ token.now ∷ self.new) }
        ensures small { IfSome result (λ token. length token.now + 1 < 2 ^ 32) }
    {
        let (token, rest) = first_token(self.rest)?;
        self.rest = rest;
        Some(token)
    }

    /// The only token, if there is exactly one.
    pub fn only(mut self) -> Option<&'a [u8]>
        ensures token { MatchOption result (length self.entry ≢ 1) (λ token. self.entry ≡ token.now ∷ []) }
        ensures small { IfSome result (λ token. length token.now + 1 < 2 ^ 32) }
    {
        let token = self.take_next()?;
        match self.take_next() {
            None => Some(token),
            Some(_) => None,
        }
    }

    /// Both tokens, if there are exactly two.
    pub fn both(mut self) -> Option<(&'a [u8], &'a [u8])>
        ensures tokens { MatchOption result (length self.entry ≢ 2) (λ tokens. self.entry ≡ tokens.0.now ∷ tokens.1.now ∷ []) }
        ensures small { IfSome result (λ tokens. (length tokens.0.now + 1 < 2 ^ 32) × (length tokens.1.now + 1 < 2 ^ 32)) }
    {
        let first = self.take_next()?;
        let second = self.only()?;
        Some((first, second))
    }

    /// Whether there are exactly this many.
    pub fn has_count(&self, count: usize) -> bool
        ensures { result ≡ (length self.now == count) }
    {
        let mut left = Tokens { rest: self.rest };
        for _ in 0..count {
            if left.take_next().is_none() {
                return false;
            }
        }
        left.take_next().is_none()
    }
}

/// How many spaces the bytes begin with.
fn spaces_before(bytes: &[u8]) -> usize
    ensures count { result ≡ prefix_len is_space bytes.now }
    ensures within { result ≤ length bytes.now }
{
    bytes.iter().take_while(|&&byte| byte == b' ').count()
}

/// How many bytes stand before the first space.
fn token_len(bytes: &[u8]) -> usize
    ensures count { result ≡ position_or_len is_space bytes.now }
    ensures within { result ≤ length bytes.now }
{
    bytes.iter().take_while(|&&byte| byte != b' ').count()
}
