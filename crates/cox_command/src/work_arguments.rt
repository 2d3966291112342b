//! The arguments of `work`.
ghost use Rattle.cox_command.specs.ParseContract.{ReadsArguments};
ghost use Rattle.cox_command.specs.declared.command_word.CommandWord.TheVariants.{Work};

use crate::limits::{MAX_COUNT, MAX_START};
use crate::{Command, Inquiry, Refusal};
use cox_tokens::{Tokens, read_number_in};

/// The arguments of `work`: the generator's state before the first word, and how many words.
pub fn parse_work(arguments: Tokens, rank: Option<u32>) -> Result<Command, Refusal>
    ensures { ReadsArguments result Work arguments.entry rank }
{
    let Some((first, second)) = arguments.both() else {
        return Err(Refusal::WrongCount);
    };
    let Some(start) = read_number_in(first, 0, MAX_START) else {
        return Err(Refusal::WrongNumber);
    };
    let Some(count) = read_number_in(second, 1, MAX_COUNT) else {
        return Err(Refusal::WrongNumber);
    };
    if rank.is_none() {
        return Err(Refusal::NoGroup);
    }
    Ok(Command::Ask(Inquiry::Work { start, count }))
}
