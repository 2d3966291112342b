//! A sink in memory.

ghost use Rattle.std.specs.Prelude.{◌≡◌, ◌+◌, ◌<◌, ◌≤◌, [], ◌++◌, length, take, vec_len, vec_capacity, IfOk, IfSome};
ghost use Rattle.cox_outside.specs.Calls.{no_calls};
ghost use Rattle.cox_outside.specs.SinkWrite.{TookFits, took_count, took_failed};
ghost use Rattle.cox_outside.specs.Outlet.{Writes, SinkCause};
ghost use Rattle.cox_outside.specs.Memory.{outlet_of, next_took, after_write};

use crate::calls::CallLog;
use crate::sink::{Sink, Took};
use std::alloc::{AllocError, Global};
use std::marker::Model;

/// A sink into memory. It tells the bytes written, and its room where no call has to fail.
#[derive(Drop)]
pub struct MemorySink {
    bytes: Vec<u8>,
    room: usize,
    piece: usize,
    calls: CallLog,
}

impl Model for MemorySink {
    ghost use Rattle.std.specs.Prelude.{◌≤◌, vec_len, vec_capacity};
    ghost use Rattle.cox_outside.specs.Memory.{MemoryOutlet};

    ghost Value = { MemoryOutlet };

    ghost view = { λ s. record { written = s.bytes.items; room = s.room; piece = s.piece; calls = s.calls } };

    ghost invariant = { λ s. (vec_len s.bytes ≤ s.room) × (s.room ≤ vec_capacity s.bytes) × (1 ≤ s.piece) };
}

impl MemorySink {
    /// A sink that takes `room` bytes in all, at most `piece` a write. The writes whose numbers,
    /// counted from 1, are in `fails` fail, and so do all once the room is used up. Its memory is
    /// taken here, and none by a write.
    pub fn new(
        alloc: Global,
        room: usize,
        piece: usize,
        fails: Vec<u64>,
    ) -> Result<MemorySink, AllocError>
        requires { 1 ≤ piece }
        ensures { IfOk result (λ s. s ≡ record { written = []; room = room; piece = piece; calls = no_calls fails.items }) }
    {
        Ok(MemorySink {
            bytes: Vec::with_capacity(alloc, room)?,
            room,
            piece,
            calls: CallLog::new(fails),
        })
    }

    /// The bytes written.
    pub fn bytes(&self) -> &[u8]
        ensures { result.now ≡ self.now.written }
    {
        self.bytes.as_slice()
    }
}

impl Sink for MemorySink {
    ghost seen = { outlet_of };

    /// Fails exactly where the call has to or no room is left; else it takes as many bytes as the
    /// piece, the bytes given and the room allow.
    fn write(&mut self, bytes: &[u8]) -> Took
        requires { 0 < length bytes.now }
        ensures answer { result ≡ next_took self.old (length bytes.now) }
        ensures after { self.new ≡ after_write result bytes.now self.old }

        // As every sink.
        ensures count { TookFits result (length bytes.now) }
        ensures puts { Writes (take (took_count result) bytes.now) (outlet_of self.old) (outlet_of self.new) }
        ensures full { result ≡ Took.Failed → IfSome (outlet_of self.old).room (λ left. left ≡ 0) }
        ensures cause { SinkCause (outlet_of self.old) (outlet_of self.new) (took_failed result) }
    {
        let left = self.room - self.bytes.len();
        if self.calls.begin() || left == 0 {
            self.calls.fail();
            return Took::Failed;
        }
        let count = left.min(self.piece.min(bytes.len()));
        append(&mut self.bytes, &bytes[..count]);
        Took::Bytes(count)
    }
}

/// Appends bytes for which there is memory already.
fn append(to: &mut Vec<u8>, bytes: &[u8])
    requires { vec_len to.old + length bytes.now ≤ vec_capacity to.old }
    ensures items { to.new.items ≡ to.old.items ++ bytes.now }
    ensures capacity { vec_capacity to.old ≤ vec_capacity to.new }
{
    to.extend_from_slice(bytes).unwrap();
}
