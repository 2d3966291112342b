//! The lines of a source, one by one.

use crate::byte_feed::ByteFeed;
use crate::limits::INPUT_LIMIT;
use crate::line_scan::{Ended, scan_line};
use crate::line_show::{show, stop_at, stopped};
use crate::source::Source;
use cox_tokens::LINE_LIMIT;
use std::alloc::{AllocError, Global};
use std::marker::Model;

/// The next line, or why there is none. A line's bytes are counted without its end, and without the
/// one CR that may stand right before it.
#[derive(Clone, Copy, Debug, PartialEq, Eq)]
pub enum Next<'a> {
    /// A line of at most `LINE_LIMIT` bytes, all from 0x20 to 0x7E.
    Line(&'a [u8]),
    /// A line of more bytes than that: how many it has.
    Long(usize),
    /// A line that is not long: the place, from 1, of its first byte outside 0x20 to 0x7E.
    Byte(usize),
    /// No byte of a line is left.
    End,
    /// A read failed, in this call or in one before.
    Failed,
    /// `INPUT_LIMIT` bytes were read, all their lines that end by LF are handed out, and one more byte
    /// came.
    Limit,
}

/// Why there are no more lines.
#[derive(Clone, Copy, Debug, PartialEq, Eq)]
pub enum Stop {
    /// The input has ended.
    End,
    /// A read failed.
    Failed,
    /// A byte beyond the limit came.
    Limit,
}

/// Reads the lines of one source. A line ends by LF or, if it is not empty, by the end of the input;
/// one CR right before that end is no part of it. The bytes `a\r\n\nb` give the lines `a`, the empty
/// one and `b`, and then `End`. Its memory is taken when it is made.
#[derive(Drop)]
pub struct LineReader {
    feed: ByteFeed,
    line: Vec<u8>,
    stop: Option<Stop>,
}

impl Model for LineReader {
    ghost use Rattle.std.specs.Prelude.{◌≡◌, ◌+◌, ◌≤◌, vec_len};
    ghost use Rattle.cox_tokens.specs.declared.limits.TheConstants.{LINE_LIMIT};
    ghost use Rattle.cox_outside.specs.declared.limits.TheConstants.{INPUT_LIMIT};
    ghost use Rattle.cox_outside.specs.Reader.{Reader};

    ghost Value = { Reader };

    ghost view = { λ r. record { feed = r.feed; stop = r.stop } };

    ghost invariant = { λ r. (vec_len r.line ≡ LINE_LIMIT + 1) × (r.feed.budget ≤ INPUT_LIMIT) };
}

impl LineReader {
    ghost use Rattle.std.specs.Prelude.{◌≡◌, None, is_some, IsSome, IfOk};
    ghost use Rattle.std.specs.Borrow.{sem};
    ghost use Rattle.std.specs.Io.BufRead.{Rests};
    ghost use Rattle.cox_outside.specs.contracts.line_reader.LineReader.{the_row};
    ghost use Rattle.cox_outside.specs.Supply.{SourceCause};
    ghost use Rattle.cox_outside.specs.Reader.{AnswersNext, fresh_reader, tells_fault};

    /// A reader that has read nothing.
    pub fn new(alloc: Global) -> Result<LineReader, AllocError>
        ensures { IfOk result (λ reader. reader ≡ fresh_reader) }
    {
        Ok(LineReader {
            feed: ByteFeed::new(alloc, INPUT_LIMIT)?,
            line: vec![in alloc; 0u8; LINE_LIMIT + 1]?,
            stop: None,
        })
    }

    /// Whether it has stopped, so that there are no more lines.
    pub fn has_stopped(&self) -> bool
        ensures { result ≡ is_some self.now.stop }
    {
        self.stop.is_some()
    }

    /// The next line. After `End`, `Failed` or `Limit` it answers the same again and reads nothing.
    pub fn next<S: Source>(&mut self, source: &mut S) -> Next<'_>
        ensures* answers { sem 𝓛 (Rests the_row self.entry (λ new.
            AnswersNext result self.old new (S.seen source.old).left (S.seen source.new).left)) }
        // A reader that has stopped leaves the source alone.
        ensures still { IsSome self.old.stop → source.new ≡ source.old }
        ensures cause { SourceCause (S.seen source.old) (S.seen source.new)
            (tells_fault self.old.stop result) }
    {
        if let Some(stop) = self.stop {
            return stopped(stop);
        }
        let ended = scan_line(&mut self.feed, &mut self.line, source);
        self.stop = stop_at(ended);
        match ended {
            Ended::Line(count, by_cr) => show(&self.line, count, by_cr),
            Ended::Last(count, by_cr) => show(&self.line, count, by_cr),
            Ended::End => Next::End,
            Ended::Failed => Next::Failed,
            Ended::Limit => Next::Limit,
        }
    }
}
