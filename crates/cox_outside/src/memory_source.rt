//! A source in memory.

ghost use Rattle.std.specs.Prelude.{◌≡◌, ◌<◌, ◌≤◌, ◌++◌, length, take, drop};
ghost use Rattle.std.specs.Io.KnownBytes.{prepend_known, IsAtEnd};
ghost use Rattle.cox_outside.specs.Calls.{no_calls};
ghost use Rattle.cox_outside.specs.SourceRead.{GotFits, got_bytes, got_count, got_failed};
ghost use Rattle.cox_outside.specs.Supply.{SourceCause};
ghost use Rattle.cox_outside.specs.Memory.{supply_of, next_got, after_read};

use crate::calls::CallLog;
use crate::source::{Got, Source};
use std::marker::Model;

/// A source over bytes in memory. It tells the bytes left, and is sure where no call has to fail.
#[derive(Drop)]
pub struct MemorySource {
    bytes: Vec<u8>,
    at: usize,
    piece: usize,
    calls: CallLog,
}

impl Model for MemorySource {
    ghost use Rattle.std.specs.Prelude.{◌≤◌, drop, vec_len};
    ghost use Rattle.cox_outside.specs.Memory.{MemorySupply};

    ghost Value = { MemorySupply };

    ghost view = { λ s. record { left = drop s.at s.bytes.items; piece = s.piece; calls = s.calls } };

    ghost invariant = { λ s. (s.at ≤ vec_len s.bytes) × (1 ≤ s.piece) };
}

impl MemorySource {
    /// A source that gives these bytes, at most `piece` a read. The reads whose numbers, counted
    /// from 1, are in `fails` fail.
    pub fn new(bytes: Vec<u8>, piece: usize, fails: Vec<u64>) -> MemorySource
        requires { 1 ≤ piece }
        ensures { result ≡ record { left = bytes.items; piece = piece; calls = no_calls fails.items } }
    {
        MemorySource {
            bytes,
            at: 0,
            piece,
            calls: CallLog::new(fails),
        }
    }
}

impl Source for MemorySource {
    ghost seen = { supply_of };

    #[tactic(auto, using(crate::proofs::Memory::copied_prefix))]
    /// Fails exactly where the call has to; else it gives as many bytes as the piece, the buffer and
    /// the bytes left allow.
    fn read(&mut self, into: &mut [u8]) -> Got
        requires { 0 < length into.old }
        ensures answer { result ≡ next_got self.old (length into.old) }
        ensures buffer { into.new ≡ take (got_count result) self.old.left ++ drop (got_count result) into.old }
        ensures after { self.new ≡ after_read result self.old }

        // As every source.
        ensures count { GotFits result (length into.old) }
        ensures bytes { (supply_of self.old).left ≡ prepend_known (got_bytes result into.new) (supply_of self.new).left }
        ensures end { result ≡ Got.End → IsAtEnd (supply_of self.old).left }
        ensures cause { SourceCause (supply_of self.old) (supply_of self.new) (got_failed result) }
    {
        if self.calls.begin() {
            self.calls.fail();
            return Got::Failed;
        }
        let rest = &self.bytes[self.at..];
        if rest.is_empty() {
            return Got::End;
        }
        let count = rest.len().min(self.piece.min(into.len()));
        copy_prefix(rest, into, count);
        self.at += count;
        Got::Bytes(count)
    }
}

/// Copies the first bytes.
fn copy_prefix(from: &[u8], into: &mut [u8], count: usize)
    requires from { count ≤ length from.now }
    requires into { count ≤ length into.old }
    ensures { into.new ≡ take count from.now ++ drop count into.old }
{
    into[..count].copy_from_slice(&from[..count]);
}
