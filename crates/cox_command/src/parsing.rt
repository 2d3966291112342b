//! Lines.
ghost use Rattle.std.specs.Prelude.{◌<◌, ◌≤◌, ◌^◌, length, IfSome};
ghost use Rattle.cox_command.specs.ParseContract.{ParsesAs, ReadsTokens, ReadsArguments};
ghost use Rattle.cox_tokens.specs.Tokens.{tokens_of};

use crate::command_word::{CommandWord, command_word};
use crate::group_arguments::{parse_matrix, parse_type};
use crate::no_arguments::{parse_jobs, parse_plain, parse_quit};
use crate::word_arguments::{parse_one, parse_two};
use crate::work_arguments::parse_work;
use crate::{Command, LineFault, Refusal};
use cox_base::MAX_RANK;
use cox_tokens::{Tokens, first_token, tokens_in};

/// Reads a line: the command that it gives, where the group that is set, if any, has this rank.
///
/// The error is the first refusal that applies, in the order `UnknownCommand`, `WrongCount`, `WrongNumber`, `NoGroup`, `UnknownType`,
/// `WrongLabel`, `LongWord`, `ForeignLetter`; a blank line is never refused. For example `type A 2` gives the group A 2, and `length 13` is
/// refused with `ForeignLetter` where the rank is 2, with `NoGroup` where no group is set.
pub fn parse(line: &[u8], rank: Option<u32>) -> Result<Command, LineFault>
    requires size { length line.now < 2 ^ 32 }
    requires rank { IfSome rank (λ n. n ≤ MAX_RANK) }
    ensures { ParsesAs result line.now rank }
{
    match parse_tokens(line, rank) {
        Ok(command) => Ok(command),
        Err(refusal) => Err(LineFault::of(refusal)),
    }
}

/// Reads the tokens of a line.
fn parse_tokens(line: &[u8], rank: Option<u32>) -> Result<Command, Refusal>
    requires size { length line.now < 2 ^ 32 }
    requires rank { IfSome rank (λ n. n ≤ MAX_RANK) }
    ensures { ReadsTokens result (tokens_of line.now) rank }
{
    let Some((name, arguments)) = first_token(line) else {
        return Ok(Command::Nothing);
    };
    let Some(word) = command_word(name) else {
        return Err(Refusal::UnknownCommand);
    };
    parse_arguments(word, tokens_in(arguments), rank)
}

/// Reads the arguments of a command.
fn parse_arguments(
    word: CommandWord,
    arguments: Tokens,
    rank: Option<u32>,
) -> Result<Command, Refusal>
    requires { IfSome rank (λ n. n ≤ MAX_RANK) }
    ensures { ReadsArguments result word arguments.entry rank }
{
    match word {
        CommandWord::Named => parse_type(arguments),
        CommandWord::Matrix => parse_matrix(arguments),
        CommandWord::Quit => parse_quit(arguments),
        CommandWord::Jobs => parse_jobs(arguments, rank),
        CommandWord::One(kind) => parse_one(kind, arguments, rank),
        CommandWord::Two(kind) => parse_two(kind, arguments, rank),
        CommandWord::Plain(kind) => parse_plain(kind, arguments, rank),
        CommandWord::Work => parse_work(arguments, rank),
    }
}
