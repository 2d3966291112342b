//! The outside of the program: the sources that its bytes come from, the sinks that they go to, and
//! the lines between them.
//!
//! A [`Source`] and a [`Sink`] say by one ghost member each what is known of them: the bytes left or written, where they are told, and a
//! count of faults. The forms over std's `Read` and `Write` tell nothing but the count; those in memory tell all. The count rises by one
//! exactly where a call tells of a fault. A [`LineReader`] hands out the lines of a source, and its contract says by the bytes that lie
//! ahead which line comes, or why none does. Each call returns, whatever a source gives, since a reader hands out no more than
//! `INPUT_LIMIT` bytes. What the lines of bytes are is said in `cox_tokens`. The tests stand in the crate `text_tests`.
//!
//! - `source`, `sink`: the two traits, and what a read or a write answers
//! - `writing`: all bytes of a slice into a sink
//! - `std_source`, `std_sink`: the forms over std's streams, which are the trusted edge
//! - `memory_source`, `memory_sink`: the forms in memory, whose contracts say exactly what each call answers
//! - `calls`: which calls of a form in memory have to fail
//! - `byte_feed`, `line_scan`, `line_show`, `line_reader`: single bytes, the ends of lines, what is
//!   told of a line, and lines one by one
//! - `limits`: how long inputs may be
//! - `arguments`: the arguments of a program, as texts
//! - `gate`: gates that workers pass, which tests use to hold them
#![tactic(auto)]

mod arguments;
mod byte_feed;
mod calls;
mod gate;
mod limits;
mod line_reader;
mod line_scan;
mod line_show;
mod memory_sink;
mod memory_source;
mod sink;
mod source;
mod std_sink;
mod std_source;
mod writing;

pub use arguments::{arguments_of, texts};
pub use cox_tokens::LINE_LIMIT;
pub use gate::{Gate, Open, Point};
pub use limits::{CHUNK_SIZE, INPUT_LIMIT};
pub use line_reader::{LineReader, Next, Stop};
pub use memory_sink::MemorySink;
pub use memory_source::MemorySource;
pub use sink::{Sink, Took};
pub use source::{Got, Source};
use std::alloc::AllocError;
pub use std_sink::StdSink;
pub use std_source::StdSource;
pub use writing::{WriteFailed, write_all};

/// The allocator had no memory left.
pub type NoMemory = AllocError;
