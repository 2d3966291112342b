//! A source over one of std's readers.

ghost use Rattle.std.specs.Prelude.{◌≡◌, ◌<◌, IfOk, Ok, OnErr, length};
ghost use Rattle.std.specs.Io.KnownBytes.{prepend_known, IsAtEnd};
ghost use Rattle.cox_outside.specs.SourceRead.{GotFits, got_bytes, got_failed};
ghost use Rattle.cox_outside.specs.Supply.{SourceCause};

use crate::source::{Got, Source};
use std::io::{self, Read};

/// A source over a reader, as standard input. It tells no bytes and is not sure; its count rises at
/// each error of the reader, also at a read that was interrupted.
#[derive(Drop)]
pub struct StdSource<R> {
    inner: R,
    faults: u64,
}

impl<R: Read> StdSource<R> {
    ghost use Rattle.cox_outside.specs.Std.{reader_of, std_supply};

    /// A source over this reader.
    pub fn new(inner: R) -> StdSource<R>
        ensures reader { reader_of result ≡ inner }
        ensures faults { (std_supply result).faults ≡ 0 }
    {
        StdSource { inner, faults: 0 }
    }
}

impl<R: Read> Source for StdSource<R> {
    ghost use Rattle.cox_outside.specs.Std.{reader_of, std_supply, TakesFrom};

    ghost seen = { std_supply };

    /// Asks the reader once, and hands on what it answers.
    fn read(&mut self, into: &mut [u8]) -> Got
        requires { 0 < length into.old }
        ensures reader { TakesFrom result into.new (R.remaining (reader_of self.old)) (R.remaining (reader_of self.new)) }

        // As every source.
        ensures count { GotFits result (length into.old) }
        ensures bytes { (std_supply self.old).left ≡ prepend_known (got_bytes result into.new) (std_supply self.new).left }
        ensures end { result ≡ Got.End → IsAtEnd (std_supply self.old).left }
        ensures cause { SourceCause (std_supply self.old) (std_supply self.new) (got_failed result) }
    {
        let got = got_by(self.inner.read(into));
        if got == Got::Failed {
            self.faults = self.faults.saturating_add(1);
        }
        got
    }
}

/// What a read gave, by the reader's answer: the end where there is no byte, and a failure only where there is an error.
fn got_by(answer: io::Result<usize>) -> Got
    ensures end { answer ≡ Ok 0 → result ≡ Got.End }
    ensures bytes { IfOk answer (λ count. 0 < count → result ≡ Got.Bytes count) }
    ensures failed { OnErr answer (result ≡ Got.Failed) }
{
    match answer {
        Ok(0) => Got::End,
        Ok(count) => Got::Bytes(count),
        Err(_) => Got::Failed,
    }
}
