//! One line, from the source to the sink.

ghost use Rattle.std.specs.Prelude.{◌≡◌, [], None};
ghost use Rattle.cox_outside.specs.Ahead.{ahead};
ghost use Rattle.cox_outside.specs.Supply.{SourceCause};
ghost use Rattle.cox_outside.specs.Outlet.{SinkCause};
ghost use Rattle.cox_shell.specs.Run.{stand, AnswersNextLine, Serves, outcome_of, stopped_read_fault, stopped_write_fault};

use crate::block_answerer::BlockAnswerer;
use crate::session::{Given, Said, Session};
use crate::status::Stopped;
use cox_command::Refusal;
use cox_outside::{LineReader, Next, Sink, Source, write_all};
use std::alloc::AllocError;

/// Serves the next line: its reply is written before this returns. What the buffer held
/// is lost.
pub fn serve_line<M: BlockAnswerer, S: Source, K: Sink>(
    maker: &M,
    reader: &mut LineReader,
    session: &mut Session,
    buffer: &mut Vec<u8>,
    source: &mut S,
    sink: &mut K,
) -> Result<Said, Stopped>
    requires going { reader.old.stop ≡ None }
    requires ready { M.ready maker.now }
    ensures serves { Serves result
        (stand session.old reader.old (S.seen source.old) (K.seen sink.old))
        (stand session.new reader.new (S.seen source.new) (K.seen sink.new)) }
    ensures source_cause { SourceCause (S.seen source.old) (S.seen source.new) (stopped_read_fault result) }
    ensures sink_cause { SinkCause (K.seen sink.old) (K.seen sink.new) (stopped_write_fault result) }
{
    buffer.clear();
    let said = answer_next(maker, reader, session, buffer, source)?;
    match write_all(sink, buffer) {
        Ok(()) => Ok(said),
        Err(_) => Err(Stopped::WriteFault),
    }
}

/// Reads the next line, and puts its reply into the empty buffer.
fn answer_next<M: BlockAnswerer, S: Source>(
    maker: &M,
    reader: &mut LineReader,
    session: &mut Session,
    buffer: &mut Vec<u8>,
    source: &mut S,
) -> Result<Said, Stopped>
    requires going { reader.old.stop ≡ None }
    requires empty { buffer.old.items ≡ [] }
    requires ready { M.ready maker.now }
    ensures answers { AnswersNextLine result session.old session.new reader.new.stop
        (ahead reader.old.feed (S.seen source.old).left) (ahead reader.new.feed (S.seen source.new).left) buffer.new.items }
    ensures cause { SourceCause (S.seen source.old) (S.seen source.new) (stopped_read_fault result) }
{
    match reader.next(source) {
        Next::Line(line) => line_outcome(session.answer_given(maker, Given::Content(line), buffer)),
        Next::Long(_) => line_outcome(session.answer_given(
            maker,
            Given::Unread(Refusal::LongLine),
            buffer,
        )),
        Next::Byte(_) => line_outcome(session.answer_given(
            maker,
            Given::Unread(Refusal::ForeignByte),
            buffer,
        )),
        Next::End => Err(Stopped::End),
        Next::Failed => Err(Stopped::ReadFault),
        Next::Limit => Err(Stopped::InputLimit),
    }
}

/// What was said to a line, or that there was no memory for its reply.
fn line_outcome(said: Result<Said, AllocError>) -> Result<Said, Stopped>
    ensures { result ≡ outcome_of said }
{
    match said {
        Ok(said) => Ok(said),
        Err(_) => Err(Stopped::NoMemory),
    }
}
