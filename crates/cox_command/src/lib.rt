//! Reads the commands of a script: what command a line gives, or why it is refused.
//!
//! `parse` is exact both ways: it answers the command that the grammar gives, and else the first refusal that applies, in a stated order.
//! Grammar and causes are definitions of their own in `specs/`, one table or one test each. The parts of a line are those of `cox_tokens`.
//! Nothing here takes memory.
//!
//! A new command with words, or without arguments, is a variant, a row in `command_text`, a place in the list `commands`, and the same two
//! in `command_word.rt`. One of another shape is also a variant of `Inquiry` and `CommandWord`, a function that reads its arguments, a case
//! of `command_by`, and a case of each test in `specs/LineRefusal.antt` that speaks of it.
//!
//! - `command`: commands as values, and why a line gives none
//! - `inquiry`: commands on elements, and on the whole group
//! - `refusal`: refusals, and their numbers
//! - `command_word`: the table of command words
//! - `no_arguments`, `group_arguments`, `word_arguments`, `work_arguments`: the arguments
//! - `limits`: how far the numbers of `work` go
//! - `parsing`: lines
//! - `generated`: the words that `work` generates
//! - `blocks`: the lines that part a list of blocks, and those that no block may have
//! - `laws`: a line that is not refused gives a command, and each command has a word
#![tactic(auto)]

mod blocks;
mod command;
mod command_word;
mod generated;
mod group_arguments;
mod inquiry;
pub mod laws;
mod limits;
mod no_arguments;
mod parsing;
mod refusal;
mod word_arguments;
mod work_arguments;

pub use blocks::{ListWord, block_refusal, list_word};
pub use command::{Command, LineFault};
pub use generated::{WORD_LETTERS, work_word};
pub use inquiry::{EntryKind, Inquiry, NoWord, OneWord, RowKind, TwoWord};
pub use limits::{MAX_COUNT, MAX_START};
pub use parsing::parse;
pub use refusal::Refusal;
