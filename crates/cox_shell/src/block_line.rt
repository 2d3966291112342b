//! What a line of a block gives, read once.
ghost use Rattle.std.specs.Prelude.{◌≡◌, ◌<◌, ◌≤◌, ◌^◌, ℕ, Option, length, IfSome};
ghost use Rattle.cox_tokens.specs.Tokens.{tokens_of};
ghost use Rattle.cox_command.specs.BlockLines.{list_word_of};
ghost use Rattle.cox_shell.specs.BlockReading.{Gives};

use cox_base::{MAX_RANK, copy_word};
use cox_command::{Command, Inquiry, ListWord, Refusal, block_refusal, list_word, parse};

/// What a line of a block gives.
#[derive(Drop)]
pub enum BlockLine {
    /// A blank line: nothing.
    Blank,
    /// A command on elements, or on the whole group.
    Ask(Inquiry),
    /// Why it is refused.
    Refused(Refusal),
}

/// What a line of a block gives in a session where the group that is set, if any, has this rank.
#[derive(Drop)]
pub struct Reading {
    pub rank: Option<u32>,
    pub gives: BlockLine,
}

/// Reads a line of a block, where the group that is set, if any, has this rank.
pub fn read_in_block(line: &[u8], rank: Option<u32>) -> BlockLine
    requires size { length line.now < 2 ^ 32 }
    requires rank { IfSome rank (λ n. n ≤ MAX_RANK) }
    ensures { Gives result line.now rank }
{
    match parse(line, rank) {
        Ok(Command::Nothing) => BlockLine::Blank,
        Ok(Command::Ask(inquiry)) => BlockLine::Ask(inquiry),
        Ok(Command::Quit | Command::Group(_) | Command::Jobs) => BlockLine::Refused(
            Refusal::UnknownCommand,
        ),
        Err(fault) => BlockLine::Refused(block_refusal(line).unwrap_or(fault.refusal)),
    }
}

/// What a line does in a list, if it parts the list, where this is what it gives as a line of a block.
pub fn parting_word(line: &[u8], gives: &BlockLine) -> Option<ListWord>
    requires size { length line.now < 2 ^ 32 }
    requires read { (rank : Option ℕ) × Gives gives.now line.now rank }
    ensures { result ≡ list_word_of (tokens_of line.now) }
{
    match gives {
        BlockLine::Blank | BlockLine::Ask(_) => None,
        BlockLine::Refused(_) => list_word(line),
    }
}

/// The same command once more.
pub fn copy_inquiry(inquiry: &Inquiry) -> Inquiry
    ensures { result ≡ inquiry.now }
{
    match inquiry {
        Inquiry::One(kind, w) => Inquiry::One(*kind, copy_word(w)),
        Inquiry::Two(kind, y, w) => Inquiry::Two(*kind, copy_word(y), copy_word(w)),
        Inquiry::Plain(kind) => Inquiry::Plain(*kind),
        Inquiry::Work { start, count } => Inquiry::Work {
            start: *start,
            count: *count,
        },
    }
}
