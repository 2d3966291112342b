//! Lines in a list of blocks: those that part it, and those that no block may have.
ghost use Rattle.std.specs.Prelude.{◌≡◌, ◌<◌, ◌^◌, ◌||◌, length, codes};
ghost use Rattle.std.specs.Str.{bytes_eq};
ghost use Rattle.cox_tokens.specs.Tokens.{tokens_of};
ghost use Rattle.cox_command.specs.BlockLines.{list_word_of, block_refusal};

use crate::Refusal;
use crate::command_word::{CommandWord, command_word};
use cox_tokens::{first_token, tokens_in};

/// A line that parts a list of blocks.
#[derive(Clone, Copy, Debug, Eq, PartialEq)]
pub enum ListWord {
    /// `next`: another block begins.
    Next,
    /// `end`: the list ends.
    End,
}

/// What a line does in a list of blocks, if it parts the list: its only token is `next` or `end`.
///
/// For example ` next ` begins a block, and `next 1` does not.
pub fn list_word(line: &[u8]) -> Option<ListWord>
    requires { length line.now < 2 ^ 32 }
    ensures { result ≡ list_word_of (tokens_of line.now) }
{
    let (token, rest) = first_token(line)?;
    if !tokens_in(rest).has_count(0) {
        return None;
    }
    if token == b"next".as_slice() {
        Some(ListWord::Next)
    } else if token == b"end".as_slice() {
        Some(ListWord::End)
    } else {
        None
    }
}

/// Why a line may not stand in a block, whatever its arguments are: `type`, `matrix`, `quit` and `jobs` are no commands there, and `next`
/// and `end` have no arguments. None of the others is refused by where it stands.
pub fn block_refusal(line: &[u8]) -> Option<Refusal>
    ensures { result ≡ block_refusal (tokens_of line.now) }
{
    let (name, _) = first_token(line)?;
    match command_word(name) {
        Some(CommandWord::Named | CommandWord::Matrix | CommandWord::Quit | CommandWord::Jobs) =>
            Some(Refusal::UnknownCommand),
        Some(_) => None,
        None if parts_list(name) => Some(Refusal::WrongCount),
        None => None,
    }
}

/// Whether a token is `next` or `end`.
fn parts_list(token: &[u8]) -> bool
    ensures { result ≡ (bytes_eq token.now (codes "next") || bytes_eq token.now (codes "end")) }
{
    token == b"next".as_slice() || token == b"end".as_slice()
}
