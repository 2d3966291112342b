//! The bytes of a source, one by one.

ghost use Rattle.std.specs.Prelude.{◌≡◌, ◌+◌, ◌<◌, ◌≤◌, [], ◌∷◌, length, IfOk, ◌==◌};
ghost use Rattle.std.specs.Io.KnownBytes.{prepend_known, IsAtEnd};
ghost use Rattle.cox_outside.specs.Supply.{SourceCause};
ghost use Rattle.cox_outside.specs.SourceRead.{GotFits, got_bytes, got_count, got_failed};
ghost use Rattle.cox_outside.specs.Feed.{bytes_ahead, came_bytes, came_cost, came_failed, HasFewPending, IsDrainedUnless, LimitIsSpent};

use crate::limits::CHUNK_SIZE;
use crate::source::{Got, Source};
use std::alloc::{AllocError, Global};
use std::marker::Model;

/// What came next.
#[derive(Clone, Copy)]
pub enum Came {
    /// The next byte.
    Byte(u8),
    /// Nothing: no byte is left.
    End,
    /// Nothing: the read failed.
    Failed,
    /// A byte beyond the limit.
    Limit(u8),
}

/// The bytes of a source, read in chunks and handed out one by one, up to a limit.
#[derive(Drop)]
pub struct ByteFeed {
    chunk: Vec<u8>,
    from: usize,
    to: usize,
    budget: usize,
}

impl Model for ByteFeed {
    ghost use Rattle.std.specs.Prelude.{◌≡◌, ◌+◌, ◌≤◌, take, drop, vec_len};
    ghost use Rattle.cox_outside.specs.declared.limits.TheConstants.{CHUNK_SIZE};
    ghost use Rattle.cox_outside.specs.Feed.{Feed};

    ghost Value = { Feed };

    ghost view = { λ f. record { pending = drop f.from (take f.to f.chunk.items); budget = f.budget } };

    ghost invariant = { λ f. (f.from ≤ f.to) × (f.to ≤ CHUNK_SIZE) × (vec_len f.chunk ≡ CHUNK_SIZE) × (f.to ≤ f.from + f.budget) };
}

impl ByteFeed {
    /// Nothing is read yet, and so many bytes may be.
    pub fn new(alloc: Global, budget: usize) -> Result<ByteFeed, AllocError>
        ensures { IfOk result (λ feed. feed ≡ record { pending = []; budget = budget }) }
    {
        Ok(ByteFeed {
            chunk: vec![in alloc; 0u8; CHUNK_SIZE]?,
            from: 0,
            to: 0,
            budget,
        })
    }

    /// The next byte, which costs one of the budget.
    pub fn next_byte<S: Source>(&mut self, source: &mut S) -> Came
        ensures bytes { bytes_ahead self.old (S.seen source.old).left
            ≡ prepend_known (came_bytes result) (bytes_ahead self.new (S.seen source.new).left) }
        ensures budget { self.old.budget ≡ self.new.budget + came_cost result }
        ensures end { result ≡ Came.End → IsAtEnd (bytes_ahead self.old (S.seen source.old).left) }
        ensures limit { LimitIsSpent result self.old.budget }
        ensures few { HasFewPending self.new.pending self.new.budget }
        ensures drained { IsDrainedUnless result self.new.pending }
        ensures cause { SourceCause (S.seen source.old) (S.seen source.new) (came_failed result) }
    {
        if !self.is_empty() {
            return Came::Byte(self.take_byte());
        }
        if self.budget == 0 {
            return self.read_beyond(source);
        }
        match self.refill(source) {
            Got::Bytes(_) => Came::Byte(self.take_byte()),
            Got::End => Came::End,
            Got::Failed => Came::Failed,
        }
    }

    /// Whether all that was read is handed out.
    fn is_empty(&self) -> bool
        ensures { result ≡ (length self.now.pending == 0) }
    {
        self.from == self.to
    }

    /// Hands out the next byte that was read.
    fn take_byte(&mut self) -> u8
        requires { 0 < length self.old.pending }
        ensures byte { self.old.pending ≡ result ∷ self.new.pending }
        ensures few { HasFewPending self.new.pending self.new.budget }
        ensures budget { self.old.budget ≡ self.new.budget + 1 }
    {
        let byte = self.chunk[self.from];
        self.from += 1;
        self.budget -= 1;
        byte
    }

    /// Reads bytes, no more than may be handed out.
    fn refill<S: Source>(&mut self, source: &mut S) -> Got
        requires empty { self.old.pending ≡ [] }
        requires some { 0 < self.old.budget }
        ensures bytes { (S.seen source.old).left ≡ prepend_known self.new.pending (S.seen source.new).left }
        ensures count { length self.new.pending ≡ got_count result }
        ensures some { GotFits result self.old.budget }
        ensures budget { self.new.budget ≡ self.old.budget }
        ensures end { result ≡ Got.End → IsAtEnd (S.seen source.old).left }
        ensures cause { SourceCause (S.seen source.old) (S.seen source.new) (got_failed result) }
    {
        let room = CHUNK_SIZE.min(self.budget);
        let got = read_first(&mut self.chunk, room, source);
        self.from = 0;
        self.to = got.count();
        got
    }

    /// Reads one byte more than may be handed out.
    fn read_beyond<S: Source>(&mut self, source: &mut S) -> Came
        requires empty { self.old.pending ≡ [] }
        requires spent { self.old.budget ≡ 0 }
        ensures same { self.new ≡ self.old }
        ensures bytes { (S.seen source.old).left ≡ prepend_known (came_bytes result) (S.seen source.new).left }
        ensures cost { came_cost result ≡ 0 }
        ensures end { result ≡ Came.End → IsAtEnd (S.seen source.old).left }
        ensures limit { LimitIsSpent result 0 }
        ensures cause { SourceCause (S.seen source.old) (S.seen source.new) (came_failed result) }
    {
        let mut beyond = [0u8; 1];
        match source.read(&mut beyond) {
            Got::Bytes(_) => Came::Limit(beyond[0]),
            Got::End => Came::End,
            Got::Failed => Came::Failed,
        }
    }
}

/// Reads into the first so many bytes of the buffer.
fn read_first<S: Source>(buffer: &mut [u8], room: usize, source: &mut S) -> Got
    requires some { 0 < room }
    requires within { room ≤ length buffer.old }
    ensures size { length buffer.new ≡ length buffer.old }
    ensures count { GotFits result room }
    ensures bytes { (S.seen source.old).left ≡ prepend_known (got_bytes result buffer.new) (S.seen source.new).left }
    ensures end { result ≡ Got.End → IsAtEnd (S.seen source.old).left }
    ensures cause { SourceCause (S.seen source.old) (S.seen source.new) (got_failed result) }
{
    source.read(&mut buffer[..room])
}
