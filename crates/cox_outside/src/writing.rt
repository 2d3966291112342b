//! Writing all of a slice.

ghost use Rattle.std.specs.Prelude.{◌≡◌, ℕ, ◌<◌, List, [], Some, codes, length, OnOk, OnErr, is_err, IfSome};
ghost use Rattle.cox_outside.specs.Outlet.{Writes, IsPrefix, SinkCause};

use crate::sink::{Sink, Took};
use std::error::Error;
use std::fmt;

/// A write failed before all bytes were written.
#[derive(Clone, Copy, Debug, PartialEq, Eq)]
pub struct WriteFailed;

impl fmt::Display for WriteFailed {
    ghost output = { λ _. Some (codes "a write failed before all bytes were written") };

    fn fmt<W: fmt::Write>(&self, f: &mut fmt::Formatter<W>) -> fmt::Result {
        f.write_str("a write failed before all bytes were written")
    }
}

impl Error for WriteFailed {}

/// Writes all the bytes, in as many writes as the sink wants, and none for no bytes. After an error
/// a prefix of them is written. A sink that tells its room fails only where it has too little: one
/// with room for two bytes takes `ab` of `abc`, and the answer is `Err`.
pub fn write_all<K: Sink>(sink: &mut K, bytes: &[u8]) -> Result<(), WriteFailed>
    ensures ok { OnOk result (Writes bytes.now (K.seen sink.old) (K.seen sink.new)) }
    ensures err { OnErr result ((written : List ℕ) × IsPrefix written bytes.now
        × Writes written (K.seen sink.old) (K.seen sink.new)) }
    ensures full { OnErr result (IfSome (K.seen sink.old).room (λ left. left < length bytes.now)) }
    ensures still { bytes.now ≡ [] → sink.new ≡ sink.old }
    ensures cause { SinkCause (K.seen sink.old) (K.seen sink.new) (is_err result) }
{
    let mut at = 0;
    'rest: while at < bytes.len() {
        match sink.write(&bytes[at..]) {
            Took::Bytes(count) => at += count,
            Took::Failed => return Err(WriteFailed),
        }
    }
    Ok(())
}
