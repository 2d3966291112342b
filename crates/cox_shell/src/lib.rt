//! The shell: the answer to a script, from the bytes of a source to the bytes of a sink.
//!
//! [`run`] and [`run_one`] read lines, answer each before they ask for the next, and end by a [`Status`]. Their
//! contract, `IsRun` in `specs/WholeRun.antt`, says what was written at each status, by the replies that the definitions
//! give to the lines, and for each status but `NoMemory` what led to it. `run` has as many workers as the arguments say
//! where rows are made, and where a list of blocks is answered. `run_one` has one thread, and is proved to return. A
//! [`Session`] answers single lines.
//!
//! It stands on `cox_outside` for lines and bytes, on `cox_command` and `cox_print` for commands and texts, on `cox_options` for the
//! arguments, on `cox_answers` for what is asked of a group, and on `cox_workers` for rows that several threads make.
//!
//! - `status`: how a run ends
//! - `workers`: rows that are made by several threads
//! - `block_answerer`, `at_once`: what answers the blocks of a list at once, and how threads do that
//! - `prefetch`: what the lines of blocks will ask for, so that its rows are made before, and how threads read those rows
//! - `list`, `limits`: lists of blocks, and how long they may be
//! - `block_line`: what a line of a block gives, read once
//! - `answered`: what the lines of blocks are answered
//! - `session`: the session, which answers the contents of lines
//! - `serving`: one line, from the source to the sink
//! - `running`: all lines, and the status that they lead to
//! - `closing`: the end of reading, where an open list ends
//! - `top`: the whole run, with the arguments of the program
#![tactic(auto)]

mod answered;
mod at_once;
mod block_answerer;
mod block_line;
mod closing;
mod limits;
mod list;
mod prefetch;
mod running;
mod serving;
mod session;
mod status;
mod top;
mod workers;

pub use cox_options::Options;
pub use cox_outside::NoMemory;
pub use limits::{MAX_BLOCKS, MAX_LINES};
pub use list::{Block, KeptLine};
pub use session::{Said, Session};
pub use status::Status;
pub use top::{run, run_one};
