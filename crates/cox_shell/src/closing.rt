//! The end of reading: a list that is open then ends.
ghost use Rattle.std.specs.Prelude.{◌≡◌};
ghost use Rattle.cox_outside.specs.Outlet.{SinkCause};
ghost use Rattle.cox_shell.specs.Closing.{Closes, EndsBy, closed_by, closed_status, closed_write_fault};

use crate::block_answerer::BlockAnswerer;
use crate::session::{Said, Session};
use crate::status::Status;
use cox_outside::{Sink, write_all};

/// What ending an open list led to.
#[derive(Clone, Copy, Debug, PartialEq, Eq)]
pub enum Closed {
    /// None was open, or it was answered.
    Answered,
    /// It was answered, with a refusal.
    Refused,
    /// A write of the answer failed.
    WriteFault,
    /// There was no memory for the answer.
    NoMemory,
}

impl Closed {
    /// What ending a list led to, by what was said of it.
    fn of(said: Said) -> Closed
        ensures { result ≡ closed_by said }
    {
        match said {
            Said::Refused(_) => Closed::Refused,
            Said::Answered | Said::Quit => Closed::Answered,
        }
    }

    /// The status of a run that ended by this one, where a list was ended then.
    fn status(self, ended: Status) -> Status
        ensures { result ≡ closed_status self ended }
    {
        match (self, ended) {
            (Closed::Answered, _) => ended,
            (Closed::Refused, Status::Done) => Status::Refused,
            (Closed::Refused, _) => ended,
            (Closed::WriteFault, _) => Status::WriteFault,
            (Closed::NoMemory, _) => Status::NoMemory,
        }
    }
}

/// Ends the open list, if there is one, after a run over the lines that ended by this status. Gives the status of the whole run. After a
/// failed write, or without memory, nothing more is done. What the buffer held is lost.
pub fn end_with<M: BlockAnswerer, K: Sink>(
    ended: Status,
    maker: &M,
    session: &mut Session,
    buffer: &mut Vec<u8>,
    sink: &mut K,
) -> Status
    requires { M.ready maker.now }
    ensures { EndsBy ended result session.old (K.seen sink.old) (K.seen sink.new) }
{
    match ended {
        Status::Done | Status::Refused | Status::ReadFault | Status::InputLimit => {
            close_list(maker, session, buffer, sink).status(ended)
        }
        Status::WriteFault | Status::NoMemory | Status::Usage => ended,
    }
}

/// Ends the list that is open, if one is: its answer is written before this returns. What the buffer held is lost.
fn close_list<M: BlockAnswerer, K: Sink>(
    maker: &M,
    session: &mut Session,
    buffer: &mut Vec<u8>,
    sink: &mut K,
) -> Closed
    requires { M.ready maker.now }
    ensures closes { Closes result session.old (K.seen sink.old) (K.seen sink.new) }
    ensures sink_cause { SinkCause (K.seen sink.old) (K.seen sink.new) (closed_write_fault result) }
{
    if !session.has_list() {
        return Closed::Answered;
    }
    buffer.clear();
    let Ok(said) = session.end_list(maker, buffer) else {
        return Closed::NoMemory;
    };
    if let Err(_) = write_all(sink, buffer) {
        return Closed::WriteFault;
    }
    Closed::of(said)
}
