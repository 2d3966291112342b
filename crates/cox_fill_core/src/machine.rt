//! The fill core as a program: `Core` takes events one by one, or as a list.
ghost use Rattle.std.specs.Prelude.{◌≡◌, ◌≢◌, ℕ, ◌<◌, true, [], length, vec_len, slice_index_or, replicate, IfOk, OnOk, OnErr, All, Ok};
ghost use Rattle.std.specs.Prelude.{None, IsTrue, false};
ghost use Rattle.cox_fill_core.specs.Fill.{opening_core, missing, after, reply, after_all, replies};
ghost use Rattle.cox_fill_core.specs.Parts.{rows_at, given_needs, NeedsLower, is_held_by};
ghost use Rattle.cox_fill_core.specs.declared.event.RowState.TheVariants.{Claimed, Free};

use crate::NoMemory;
use crate::event::{Event, Reply, RowState};
use crate::lists::{Known, Needs, copy_needs, least_missing, mark, tell, unseen};
use std::alloc::Global;

/// The state of a fill: what each row is, who holds it, and which rows each actor has seen Published.
#[derive(Drop)]
pub struct Core {
    alloc: Global,
    needs: Vec<Needs>,
    states: Vec<RowState>,
    holders: Vec<Option<u32>>,
    seen: Vec<Known>,
    ghost a_state_each: { vec_len states ≡ vec_len needs },
    ghost a_holder_each: { vec_len holders ≡ vec_len needs },
    ghost a_mark_each: { (a : ℕ) → a < vec_len seen → length (slice_index_or seen.items a []) ≡ vec_len needs },
    ghost lower: { NeedsLower (rows_at needs.items) },
    ghost unheld: { (i : ℕ) → slice_index_or states.items i Free ≢ Claimed → slice_index_or holders.items i None ≡ None },
}

impl Core {
    ghost use Rattle.cox_fill_core.specs.Machine.{fill_of, needs_of, row_count, actor_count, IsEventInRange, HasSameShape, TakesEvent};

    /// A core in which all rows are Free. Row `i` needs the rows of `needs[i]`, which have smaller numbers.
    /// With the needs `[[], [0]]` there are two rows, and the second needs the first.
    pub fn new(alloc: Global, needs: &[Vec<u32>], actors: u32) -> Result<Core, NoMemory>
        requires { NeedsLower (given_needs needs.now) }
        ensures opening { IfOk result (λ core. fill_of core ≡ opening_core) }
        ensures needs { IfOk result (λ core. needs_of core ≡ given_needs needs.now) }
        ensures rows { IfOk result (λ core. row_count core ≡ length needs.now) }
        ensures actors { IfOk result (λ core. actor_count core ≡ actors) }
    {
        let blank = Blank::new(alloc, needs.len(), actors)?;
        let needs = copy_needs(alloc, needs)?;
        Ok(Core {
            alloc,
            needs,
            states: blank.states,
            holders: blank.holders,
            seen: blank.seen,
        })
    }

    /// How many rows there are.
    pub fn rows(&self) -> usize
        ensures { result ≡ row_count self.now }
    {
        self.needs.len()
    }

    /// How many actors there are.
    pub fn actors(&self) -> usize
        ensures { result ≡ actor_count self.now }
    {
        self.seen.len()
    }

    /// The state of a row.
    pub fn state(&self, row: u32) -> RowState
        requires { row < row_count self.now }
        ensures { result ≡ (fill_of self.now).state row }
    {
        self.states[row as usize]
    }

    /// Whether the actor has seen the row Published.
    pub fn seen(&self, actor: u32, row: u32) -> bool
        requires actor { actor < actor_count self.now }
        requires row { row < row_count self.now }
        ensures { result ≡ (fill_of self.now).seen actor row }
    {
        self.seen[actor as usize].has(row)
    }

    fn holds(&self, actor: u32, row: u32) -> bool
        requires { row < row_count self.now }
        ensures { result ≡ (fill_of self.now).holds actor row }
    {
        match self.holders[row as usize] {
            Some(holder) => holder == actor,
            None => false,
        }
    }

    // The least row that this row needs and that the actor has not seen Published.
    fn missing(&self, actor: u32, row: u32) -> Option<u32>
        requires actor { actor < actor_count self.now }
        requires row { row < row_count self.now }
        ensures { result ≡ missing (needs_of self.now) (fill_of self.now) actor row }
    {
        least_missing(&self.needs[row as usize], &self.seen[actor as usize])
    }

    /// Takes one event and says what it led to. It takes no memory, and never fails.
    pub fn step(&mut self, event: Event) -> Result<Reply, NoMemory>
        requires { IsEventInRange self.old event }
        ensures reply { result ≡ Ok (reply (needs_of self.old) (fill_of self.old) event) }
        ensures state { fill_of self.new ≡ after (needs_of self.old) (fill_of self.old) event }
        ensures shape { HasSameShape self.old self.new }
    {
        Ok(self.take(event))
    }

    /// Takes the events in order and says what each led to. Out of memory, the core is as it was.
    pub fn run(&mut self, events: &[Event]) -> Result<Vec<Reply>, NoMemory>
        requires { All (IsEventInRange self.old) events.now }
        ensures replies { IfOk result (λ r. r.items ≡ replies (needs_of self.old) (fill_of self.old) events.now) }
        ensures state { OnOk result (fill_of self.new ≡ after_all (needs_of self.old) (fill_of self.old) events.now) }
        ensures shape { HasSameShape self.old self.new }
        ensures err { OnErr result (self.new ≡ self.old) }
    {
        let mut answers = Vec::with_capacity(self.alloc, events.len())?;
        for &event in events {
            answers.push_reserved(self.take(event));
        }
        Ok(answers)
    }

    fn take(&mut self, event: Event) -> Reply
        requires { IsEventInRange self.old event }
        ensures { TakesEvent self.old self.new event result }
    {
        match event {
            Event::Claim(actor, row) => self.claim(actor, row),
            Event::Look(actor, row) => Reply::Seen(self.notice(actor, row)),
            Event::Publish(actor, row) => self.publish(actor, row),
            Event::Void(actor, row) => self.void(actor, row),
            Event::Tell(from, to) => self.tell(from, to),
        }
    }

    fn claim(&mut self, actor: u32, row: u32) -> Reply
        requires { IsEventInRange self.old (Event.Claim actor row) }
        ensures { TakesEvent self.old self.new (Event.Claim actor row) result }
    {
        if self.states[row as usize] == RowState::Free {
            self.states[row as usize] = RowState::Claimed;
            self.holders[row as usize] = Some(actor);
            return Reply::Won;
        }
        Reply::Lost(self.notice(actor, row))
    }

    // Tells the actor the state of the row.
    fn notice(&mut self, actor: u32, row: u32) -> RowState
        requires { IsEventInRange self.old (Event.Look actor row) }
        ensures { TakesEvent self.old self.new (Event.Look actor row) (Reply.Seen result) }
    {
        let state = self.states[row as usize];
        if state == RowState::Published {
            mark(&mut self.seen, actor, row);
        }
        state
    }

    fn publish(&mut self, actor: u32, row: u32) -> Reply
        requires { IsEventInRange self.old (Event.Publish actor row) }
        ensures { TakesEvent self.old self.new (Event.Publish actor row) result }
    {
        if !self.holds(actor, row) {
            return Reply::NotYours;
        }
        if let Some(other) = self.missing(actor, row) {
            return Reply::Missing(other);
        }
        self.states[row as usize] = RowState::Published;
        self.holders[row as usize] = None;
        mark(&mut self.seen, actor, row);
        Reply::Made
    }

    fn void(&mut self, actor: u32, row: u32) -> Reply
        requires { IsEventInRange self.old (Event.Void actor row) }
        ensures { TakesEvent self.old self.new (Event.Void actor row) result }
    {
        if !self.holds(actor, row) {
            return Reply::NotYours;
        }
        self.states[row as usize] = RowState::Void;
        self.holders[row as usize] = None;
        Reply::Voided
    }

    fn tell(&mut self, from: u32, to: u32) -> Reply
        requires { IsEventInRange self.old (Event.Tell from to) }
        ensures { TakesEvent self.old self.new (Event.Tell from to) result }
    {
        tell(&mut self.seen, from, to);
        Reply::Told
    }
}

/// What a core has of its rows at the opening, beside their needs: each is Free, nobody holds one, and no actor has seen one Published.
#[derive(Drop)]
struct Blank {
    states: Vec<RowState>,
    holders: Vec<Option<u32>>,
    seen: Vec<Known>,
}

impl Blank {
    /// For so many rows and actors.
    fn new(alloc: Global, rows: usize, actors: u32) -> Result<Blank, NoMemory>
        ensures states { IfOk result (λ blank. blank.states.items ≡ replicate rows Free) }
        ensures holders { IfOk result (λ blank. blank.holders.items ≡ replicate rows None) }
        ensures seen { IfOk result (λ blank. blank.seen.items ≡ replicate actors (replicate rows false)) }
    {
        Ok(Blank {
            states: vec![in alloc; RowState::Free; rows]?,
            holders: vec![in alloc; None; rows]?,
            seen: unseen(alloc, actors, rows)?,
        })
    }
}
