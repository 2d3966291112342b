//! The commands without arguments.
ghost use Rattle.std.specs.Prelude.{ℕ, Option};
ghost use Rattle.cox_command.specs.ParseContract.{ReadsArguments};
ghost use Rattle.cox_command.specs.declared.command_word.CommandWord.TheVariants.{Quit, Jobs, Plain};

use crate::{Command, Inquiry, NoWord, Refusal};
use cox_tokens::Tokens;

/// `quit` has no arguments.
pub fn parse_quit(arguments: Tokens) -> Result<Command, Refusal>
    ensures { (rank : Option ℕ) → ReadsArguments result Quit arguments.entry rank }
{
    if !arguments.has_count(0) {
        return Err(Refusal::WrongCount);
    }
    Ok(Command::Quit)
}

/// Nor has `jobs`, which needs a group.
pub fn parse_jobs(arguments: Tokens, rank: Option<u32>) -> Result<Command, Refusal>
    ensures { ReadsArguments result Jobs arguments.entry rank }
{
    if !arguments.has_count(0) {
        return Err(Refusal::WrongCount);
    }
    if rank.is_none() {
        return Err(Refusal::NoGroup);
    }
    Ok(Command::Jobs)
}

/// Nor has a command on the whole group, which needs a group.
pub fn parse_plain(kind: NoWord, arguments: Tokens, rank: Option<u32>) -> Result<Command, Refusal>
    ensures { ReadsArguments result (Plain kind) arguments.entry rank }
{
    if !arguments.has_count(0) {
        return Err(Refusal::WrongCount);
    }
    if rank.is_none() {
        return Err(Refusal::NoGroup);
    }
    Ok(Command::Ask(Inquiry::Plain(kind)))
}
