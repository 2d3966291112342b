//! The table, and the calls of threads.
ghost use Rattle.std.specs.Prelude.{◌≡◌, ◌≢◌, ℕ, ◌<◌, ◌≤◌, max, [], map, vec_capacity, IfOk, IfErr};
ghost use Rattle.cox_claims.specs.Knowledge.{holds, SeesAll, newcomer, Looks, TriesClaim, Publishes, Voids, parted, told, joined};
ghost use Rattle.cox_claims.specs.Rule.{state_of};
ghost use Rattle.cox_fill_core.specs.declared.event.RowState.{RowState};
ghost use Rattle.cox_fill_core.specs.declared.event.RowState.TheVariants.{Free};
ghost use Rattle.std.specs.Slots.{slots_items, slots_len, IsFull};

use crate::NoMemory;
use crate::rule::{ClaimPlay, LookPlay, Meeting, Parting, PublishPlay, Rule, VoidPlay};
use crate::seat::Seat;
use crate::view::View;
use atomic_table::{Closed, Table};
use cox_fill_core::RowState;
use std::alloc::Global;
use std::sync::Wait;
use std::sync::atomic::AtomicU64;
use std::sync::atomic::Ordering::SeqCst;

/// What a claim came to.
#[derive(Clone, Copy, Debug, PartialEq, Eq)]
pub enum Claimed {
    /// The row was Free, and the seat holds it now.
    Won,
    /// The row was not Free, but in this state.
    Lost(RowState),
}

/// What shows that a row was made, so that it may be published.
pub trait Evidence {
    // The number of the row.
    ghost number: { Self → ℕ };
}

/// What shows that a thread slept on a row. Only a call that sleeps makes one.
#[derive(Drop)]
pub struct Slept {
    row: u32,
}

// What the word of a row may be.
const FREE: u64 = 0;

const CLAIMED: u64 = 1;

const PUBLISHED: u64 = 2;

const VOID: u64 = 3;

fn state_from(word: u64) -> RowState
    ensures { result ≡ state_of word }
{
    match word {
        FREE => RowState::Free,
        CLAIMED => RowState::Claimed,
        PUBLISHED => RowState::Published,
        _ => RowState::Void,
    }
}

/// The states of all rows, shared by any number of threads.
#[derive(Drop)]
pub struct Claims {
    table: Table<(), View, u32, Rule, Global>,
    rows: u32,
    alloc: Global,
    // How many threads sleep on a row, or are about to.
    sleepers: AtomicU64,
    ghost keyed: { table.shared.key ≡ rows },
    ghost a_word_each: { table.shared.table_id.words ≡ rows },
    ghost no_slots: { table.shared.table_id.slots ≡ 0 },
    ghost some_rows: { 0 < rows },
}

impl Claims {
    ghost use Rattle.cox_claims.specs.Seats.{view_of, number_of, splits_of, one_more_split, IsSameSeat, Holds, HoldsNothing, HasSeen};
    ghost use Rattle.cox_claims.specs.Seats.{HoldsBeyond, HasSeenVoid, HasSeenEnd, HasMarked, Reads};
    ghost use Rattle.cox_claims.specs.Tables.{rows_of, slept_on, IsSeatOf, Closes};

    /// A table of this many rows, all Free, and its first seat, which has the number 0 and has seen nothing.
    ///
    /// `NoMemory` comes where there is no memory for the table.
    pub fn new(alloc: Global, rows: u32) -> Result<(Claims, Seat), NoMemory>
        requires { 0 < rows }
        ensures seat { IfOk result (λ made. IsSeatOf made.0 made.1) }
        ensures rows { IfOk result (λ made. rows_of made.0 ≡ rows) }
        ensures view { IfOk result (λ made. view_of made.1 ≡ newcomer) }
        ensures first { IfOk result (λ made. number_of made.1 ≡ 0) }
        ensures splits { IfOk result (λ made. splits_of made.1 ≡ 0) }
    {
        let words = vec![in alloc; FREE; rows as usize]?;
        let (table, seat) = Table::of_words(alloc, &words, &rows)?;
        let claims = Claims {
            table,
            rows,
            alloc,
            sleepers: AtomicU64::new(0),
        };
        Ok((claims, Seat { seat, splits: 0 }))
    }

    /// How many rows there are.
    pub fn rows(&self) -> u32
        ensures { result ≡ rows_of self.now }
    {
        self.rows
    }

    /// Claims a row, by one step that changes the row's word only if the row is Free.
    /// `Lost` comes only where the row was not Free at that step, with the state that it had.
    pub fn claim(&self, seat: &mut Seat, row: u32) -> Claimed
        requires own { IsSeatOf self.now seat.old }
        requires row { row < rows_of self.now }
        ensures seat { IsSameSeat seat.old seat.new }
        ensures splits { splits_of seat.new ≡ splits_of seat.old }
        ensures step { TriesClaim (view_of seat.old) row result (view_of seat.new) }
        ensures won { result ≡ Claimed.Won → Holds seat.new row }
        ensures lost { (state : RowState) → result ≡ Claimed.Lost state
            → (state ≢ Free) × Reads seat.old row state seat.new }
    {
        let shared = &self.table.shared;
        match shared.compare_exchange::<ClaimPlay>(&mut seat.seat, row as usize, FREE, CLAIMED) {
            FREE => Claimed::Won,
            found => Claimed::Lost(state_from(found)),
        }
    }

    /// The state of a row at this call's one step, never earlier than what the seat has seen of it.
    pub fn look(&self, seat: &mut Seat, row: u32) -> RowState
        requires own { IsSeatOf self.now seat.old }
        requires row { row < rows_of self.now }
        ensures seat { IsSameSeat seat.old seat.new }
        ensures splits { splits_of seat.new ≡ splits_of seat.old }
        ensures step { Looks (view_of seat.old) row result (view_of seat.new) }
        ensures read { Reads seat.old row result seat.new }
    {
        let shared = &self.table.shared;
        state_from(shared.load::<LookPlay>(&mut seat.seat, row as usize))
    }

    /// Publishes a row that the seat holds and that was made, and wakes who sleeps on it.
    pub fn publish<E: Evidence>(&self, seat: &mut Seat, row: u32, made: &E)
        requires own { IsSeatOf self.now seat.old }
        requires row { row < rows_of self.now }
        requires held { Holds seat.old row }
        requires made { E.number made.now ≡ row }
        ensures seat { IsSameSeat seat.old seat.new }
        ensures splits { splits_of seat.new ≡ splits_of seat.old }
        ensures step { Publishes (view_of seat.old) row (view_of seat.new) }
        ensures seen { HasSeen seat.new row }
    {
        let _ = made;
        let shared = &self.table.shared;
        shared.store::<PublishPlay>(&mut seat.seat, row as usize, PUBLISHED);
        self.wake(seat, row);
    }

    /// Gives up a row that the seat holds, and wakes who sleeps on it.
    pub fn void(&self, seat: &mut Seat, row: u32)
        requires own { IsSeatOf self.now seat.old }
        requires row { row < rows_of self.now }
        requires held { Holds seat.old row }
        ensures seat { IsSameSeat seat.old seat.new }
        ensures splits { splits_of seat.new ≡ splits_of seat.old }
        ensures step { Voids (view_of seat.old) row (view_of seat.new) }
        ensures seen { HasSeenVoid seat.new row × HasMarked seat.new row }
    {
        let shared = &self.table.shared;
        shared.store::<VoidPlay>(&mut seat.seat, row as usize, VOID);
        self.wake(seat, row);
    }

    /// Sleeps while a row is Claimed, until it is published or given up. It may also return before. All rows that the seat holds have
    /// greater numbers. What it gives shows that the caller slept on this row.
    pub fn sleep_on<R: Wait>(&self, rt: &R, seat: &Seat, row: u32) -> Slept
        requires row { row < rows_of self.now }
        requires order { HoldsBeyond seat.now row }
        ensures { slept_on result ≡ row }
    {
        let _ = seat;
        self.sleepers.fetch_add(1, SeqCst);
        self.table.shared.park(rt, row as usize, CLAIMED as u32);
        self.sleepers.fetch_sub(1, SeqCst);
        Slept { row }
    }

    /// How many threads sleep on a row, or are about to, on any row.
    pub fn sleepers(&self) -> u64 {
        self.sleepers.load(SeqCst)
    }

    /// Wakes who sleeps on a row, after its word was changed: the seat has seen the row's end. A wake asks the system, so it is left out
    /// where no thread sleeps on any row.
    ///
    /// No sleeper is missed. A thread that is to sleep is counted first, and sleeps only if the word still says Claimed after that. All
    /// these steps have one order: a count of 0 here was read before the thread was counted, so that the thread finds the changed word.
    fn wake(&self, seat: &Seat, row: u32)
        requires row { row < rows_of self.now }
        requires ended { HasSeenEnd seat.now row }
    {
        let _ = seat;
        if self.sleepers() > 0 {
            self.table.shared.wake_all(row as usize);
        }
    }

    /// A new seat, which has seen what this one has and holds nothing. Both count one split more.
    pub fn split(&self, seat: &mut Seat) -> Seat
        requires { IsSeatOf self.now seat.old }
        ensures own { IsSeatOf self.now result }
        ensures seat { IsSameSeat seat.old seat.new }
        ensures old { view_of seat.new ≡ parted (view_of seat.old) }
        ensures new { view_of result ≡ told (view_of seat.old) }
        ensures seen { SeesAll (view_of seat.old) (view_of result) }
        ensures idle { HoldsNothing result }
        ensures splits { let count = one_more_split (splits_of seat.old) in
            (splits_of seat.new ≡ count) × (splits_of result ≡ count) }
    {
        let other = self.table.shared.split_seat::<Parting>(&mut seat.seat);
        seat.splits = seat.splits.saturating_add(1);
        Seat {
            seat: other,
            splits: seat.splits,
        }
    }

    /// Ends a seat that holds nothing: the first seat has then seen what both had.
    pub fn meet(&self, seat: &mut Seat, other: Seat)
        requires own { IsSeatOf self.now seat.old × IsSeatOf self.now other }
        requires idle { HoldsNothing other }
        ensures seat { IsSameSeat seat.old seat.new }
        ensures view { view_of seat.new ≡ joined (view_of seat.old) (view_of other) }
        ensures seen { SeesAll (view_of seat.old) (view_of seat.new) × SeesAll (view_of other) (view_of seat.new) }
        ensures held { (i : ℕ) → holds (view_of seat.new) i ≡ holds (view_of seat.old) i }
        ensures splits { splits_of seat.new ≡ max (splits_of seat.old) (splits_of other) }
    {
        let Seat {
            seat: other,
            splits,
        } = other;
        self.table
            .shared
            .join_seat::<Meeting>(&mut seat.seat, other);
        seat.splits = seat.splits.max(splits);
    }

    /// Ends the table. Gives the state of each row at the end, none of them earlier than what the seat knows of it.
    /// Out of memory, the table and the seat come back as they were.
    pub fn close(self, seat: Seat) -> Result<Vec<RowState>, (Claims, Seat)>
        requires { IsSeatOf self seat }
        ensures states { IfOk result (λ states. Closes (view_of seat) (number_of seat) (rows_of self) states.items) }
        ensures back { IfErr result (λ both. (both.0 ≡ self) × (both.1 ≡ seat)) }
    {
        let Ok(states) = Vec::with_capacity(self.alloc, self.rows as usize) else {
            return Err((self, seat));
        };
        let Claims {
            table,
            rows: _,
            alloc: _,
            sleepers: _,
        } = self;
        let Seat { seat, splits: _ } = seat;
        let closed = table.close_with(seat);
        let states = read_states(&closed, states);
        closed.free();
        Ok(states)
    }
}

// The states that the words say, one for each row.
fn read_states(closed: &Closed<(), Global>, mut states: Vec<RowState>) -> Vec<RowState>
    requires empty { states.items ≡ [] }
    requires room { slots_len closed.now.words ≤ vec_capacity states }
    requires full { IsFull closed.now.words }
    ensures { result.items ≡ map state_of (slots_items closed.now.words) }
{
    for row in 0..closed.words.len() {
        states.push_reserved(state_from(closed.word(row)));
    }
    states
}
