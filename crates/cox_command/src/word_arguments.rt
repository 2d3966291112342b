//! The arguments that are words.
ghost use Rattle.std.specs.Prelude.{◌≤◌, IfSome};
ghost use Rattle.cox_command.specs.ParseContract.{ReadsArguments};
ghost use Rattle.cox_command.specs.declared.command_word.CommandWord.TheVariants.{One, Two};

use crate::{Command, Inquiry, OneWord, Refusal, TwoWord};
use cox_base::{MAX_RANK, WordFault, read_word};
use cox_tokens::Tokens;

/// The argument of a command with one word.
pub fn parse_one(kind: OneWord, arguments: Tokens, rank: Option<u32>) -> Result<Command, Refusal>
    requires { IfSome rank (λ n. n ≤ MAX_RANK) }
    ensures { ReadsArguments result (One kind) arguments.entry rank }
{
    let Some(text) = arguments.only() else {
        return Err(Refusal::WrongCount);
    };
    let Some(rank) = rank else {
        return Err(Refusal::NoGroup);
    };
    match read_word(text, rank) {
        Ok(word) => Ok(Command::Ask(Inquiry::One(kind, word))),
        Err(WordFault::Long(_)) => Err(Refusal::LongWord),
        Err(WordFault::Letter(_)) => Err(Refusal::ForeignLetter),
    }
}

/// The arguments of a command with two words.
pub fn parse_two(kind: TwoWord, arguments: Tokens, rank: Option<u32>) -> Result<Command, Refusal>
    requires { IfSome rank (λ n. n ≤ MAX_RANK) }
    ensures { ReadsArguments result (Two kind) arguments.entry rank }
{
    let Some((first, second)) = arguments.both() else {
        return Err(Refusal::WrongCount);
    };
    let Some(rank) = rank else {
        return Err(Refusal::NoGroup);
    };
    match (read_word(first, rank), read_word(second, rank)) {
        (Ok(y), Ok(w)) => Ok(Command::Ask(Inquiry::Two(kind, y, w))),
        (Err(WordFault::Long(_)), _) | (_, Err(WordFault::Long(_))) => Err(Refusal::LongWord),
        _ => Err(Refusal::ForeignLetter),
    }
}
