//! All lines, and the status that they lead to.

ghost use Rattle.std.specs.Prelude.{◌≡◌};
ghost use Rattle.cox_outside.specs.Supply.{SourceCause};
ghost use Rattle.cox_outside.specs.Outlet.{SinkCause};
ghost use Rattle.cox_outside.specs.Reader.{fresh_reader};
ghost use Rattle.cox_shell.specs.Run.{stand};
ghost use Rattle.cox_shell.specs.Status.{is_read_fault, is_write_fault};
ghost use Rattle.cox_shell.specs.Outcome.{Runs};

use crate::block_answerer::BlockAnswerer;
use crate::serving::serve_line;
use crate::session::{Said, Session};
use crate::status::{Status, Stopped};
use cox_outside::{LineReader, Sink, Source};

/// Serves line after line, until one ends the run, none is left, or something fails. What the buffer
/// held is lost.
pub fn run_lines<M: BlockAnswerer, S: Source, K: Sink>(
    maker: &M,
    reader: &mut LineReader,
    session: &mut Session,
    buffer: &mut Vec<u8>,
    source: &mut S,
    sink: &mut K,
) -> Status
    requires fresh { reader.old ≡ fresh_reader }
    requires ready { M.ready maker.now }
    ensures runs { Runs result
        (stand session.old reader.old (S.seen source.old) (K.seen sink.old))
        (stand session.new reader.new (S.seen source.new) (K.seen sink.new)) }
    ensures source_cause { SourceCause (S.seen source.old) (S.seen source.new) (is_read_fault result) }
    ensures sink_cause { SinkCause (K.seen sink.old) (K.seen sink.new) (is_write_fault result) }
{
    let mut refused = false;
    'lines: while !reader.has_stopped() {
        match serve_line(maker, reader, session, buffer, source, sink) {
            Ok(Said::Answered) => {}
            Ok(Said::Refused(_)) => refused = true,
            Ok(Said::Quit) => return Stopped::End.status(refused),
            Err(stopped) => return stopped.status(refused),
        }
    }
    Stopped::End.status(refused)
}
