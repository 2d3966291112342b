//! The words that `work` generates.
ghost use Rattle.std.specs.Prelude.{◌≡◌, ◌+◌, ◌*◌, ◌%◌, ◌≤◌};
ghost use Rattle.cox_base.specs.Matrix.{IsWord, IsLetter};
ghost use Rattle.cox_command.specs.Generated.{state_after, generated_word};

use crate::limits::MAX_START;
use cox_base::{MAX_RANK, Word};

/// What a step multiplies the state by.
pub(crate) const MULTIPLIER: u32 = 75;

/// What it adds then.
pub(crate) const INCREMENT: u32 = 74;

/// How many states there are: a step takes the remainder by this number.
pub(crate) const MODULUS: u32 = 65_537;

/// How many letters a generated word has.
pub const WORD_LETTERS: usize = 12;

/// The word that the generator gives from the state `g`, over the letters of a group of this rank, and the state behind it.
///
/// Each step sets the state to (75 g + 74) mod 65537, and gives the letter 1 + g mod `rank` by the new state; the word has the letters of
/// twelve steps. For example the state 7 gives in rank 2 the word 221221111211 and the state 34736.
pub fn work_word(g: u32, rank: u32) -> (Word, u32)
    requires state { g ≤ MAX_START }
    requires from_one { 1 ≤ rank }
    requires to_most { rank ≤ MAX_RANK }
    ensures word { result.0.items ≡ generated_word rank g }
    ensures letters { IsWord rank result.0.items }
    ensures state { result.1 ≡ state_after WORD_LETTERS g }
    ensures most { result.1 ≤ MAX_START }
{
    let mut word = Word::new();
    let mut state = g;
    for _ in 0..WORD_LETTERS {
        state = step(state);
        word.push(letter_of(state, rank));
    }
    (word, state)
}

/// The state after one step.
fn step(g: u32) -> u32
    requires { g ≤ MAX_START }
    ensures state { result ≡ (MULTIPLIER * g + INCREMENT) % MODULUS }
    ensures most { result ≤ MAX_START }
{
    (MULTIPLIER * g + INCREMENT) % MODULUS
}

/// The letter that a state gives.
fn letter_of(g: u32, rank: u32) -> u8
    requires from_one { 1 ≤ rank }
    requires to_most { rank ≤ MAX_RANK }
    ensures is { result ≡ 1 + g % rank }
    ensures letter { IsLetter rank result }
{
    (1 + g % rank) as u8
}
