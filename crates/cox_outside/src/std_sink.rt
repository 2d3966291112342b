//! A sink over one of std's writers.

ghost use Rattle.std.specs.Prelude.{◌≡◌, ◌<◌, IfOk, IfSome, Ok, OnErr, length, take};
ghost use Rattle.cox_outside.specs.SinkWrite.{TookFits, took_count, took_failed};
ghost use Rattle.cox_outside.specs.Outlet.{Writes, SinkCause};

use crate::sink::{Sink, Took};
use std::io::{self, Write};

/// A sink over a writer, as standard output. It tells no bytes and no room; its count rises at each
/// error of the writer, and where the writer takes nothing.
#[derive(Drop)]
pub struct StdSink<W> {
    inner: W,
    faults: u64,
}

impl<W: Write> StdSink<W> {
    ghost use Rattle.cox_outside.specs.Std.{writer_of, std_outlet};

    /// A sink over this writer.
    pub fn new(inner: W) -> StdSink<W>
        ensures writer { writer_of result ≡ inner }
        ensures faults { (std_outlet result).faults ≡ 0 }
    {
        StdSink { inner, faults: 0 }
    }
}

impl<W: Write> Sink for StdSink<W> {
    ghost use Rattle.cox_outside.specs.Std.{writer_of, std_outlet, HandsOn};

    ghost seen = { std_outlet };

    /// Asks the writer once, and hands on what it answers; but where the writer takes no byte, that is a fault.
    fn write(&mut self, bytes: &[u8]) -> Took
        requires { 0 < length bytes.now }
        ensures writer { HandsOn result bytes.now (W.contents (writer_of self.old)) (W.contents (writer_of self.new)) }

        // As every sink.
        ensures count { TookFits result (length bytes.now) }
        ensures puts { Writes (take (took_count result) bytes.now) (std_outlet self.old) (std_outlet self.new) }
        ensures full { result ≡ Took.Failed → IfSome (std_outlet self.old).room (λ left. left ≡ 0) }
        ensures cause { SinkCause (std_outlet self.old) (std_outlet self.new) (took_failed result) }
    {
        let took = took_by(self.inner.write(bytes));
        if took == Took::Failed {
            self.faults = self.faults.saturating_add(1);
        }
        took
    }
}

/// What a write took, by the writer's answer: so many bytes where it took some, and a failure where it took none or there is an error.
fn took_by(answer: io::Result<usize>) -> Took
    ensures bytes { IfOk answer (λ count. 0 < count → result ≡ Took.Bytes count) }
    ensures nothing { answer ≡ Ok 0 → result ≡ Took.Failed }
    ensures failed { OnErr answer (result ≡ Took.Failed) }
{
    match answer {
        Ok(count) if count > 0 => Took::Bytes(count),
        Ok(_) | Err(_) => Took::Failed,
    }
}
