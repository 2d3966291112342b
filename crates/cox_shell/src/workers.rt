//! Workers that make rows into a store that they share, and that answer the blocks of a list.
//!
//! The rows that are there are moved into the store first, and all come back afterwards. What the workers could not make is left to whoever
//! asked: one thread makes it then, or finds that a row is beyond a limit.
ghost use Rattle.std.specs.Prelude.{◌≡◌, ◌≢◌, ◌⊎◌, ℕ, ◌<◌, ◌≤◌, length, IsTrue};
ghost use Rattle.cox_claims.specs.Seats.{HoldsNothing, HasSeen, view_of};
ghost use Rattle.cox_claims.specs.Knowledge.{SeesAll};
ghost use Rattle.cox_row.specs.Rising.{AreWithin};
ghost use Rattle.cox_row_store.specs.Stores.{elements_of, limit_of, IsSeat};
ghost use Rattle.cox_rows.specs.Holding.{HasRow};
ghost use Rattle.cox_answers.specs.Kept.{IsSameContext, IsMore};
ghost use Rattle.cox_shell.specs.MovedRows.{IsSeenTaken};

use crate::answered::AnsweredText;
use crate::block_answerer::BlockAnswerer;
use crate::list::Block;
use crate::session::Session;
use cox_answers::{RowMaker, Workspace};
use cox_context::Context;
use cox_outside::Gate;
use cox_row_store::{Claimed, RowStore, Seat};
use cox_rows::Rows;
use cox_workers::{fill, fill_row, shorter_member};
use std::alloc::{AllocError, Global};
use std::sync::Wait;
use std::thread::Threads;

/// From how many missing rows on workers are asked at once.
const MANY_ROWS: usize = 1_024;

/// How many polynomials are added up in the time that it takes to start threads. In the time that a store and the tables of workers take,
/// one more is added up for each member of the context.
const START_COST: u64 = 4_096;

/// The rows that are there are moved into the store and out of it. In that time one polynomial is added up for so many that were added up
/// to make them.
const ADDED_FOR_ONE: u64 = 2;

/// Where fewer than [`MANY_ROWS`] rows are missing: workers are asked when so many times what they cost is known to be left. Mostly more is
/// left than is known.
const TIMES_LEFT: u64 = 2;

/// They are asked too when one thread has added up so many times what they cost.
const TIMES_ADDED: u64 = 16;

/// A list of at least this many lines is answered by several threads, whatever its lines are. For fewer short lines it is not worth it to
/// start threads.
const MANY_LINES: usize = 256;

/// A line of at least this many bytes may take long: it has some twenty letters.
const SLOW_LINE: usize = 24;

/// Rows are made, and blocks are answered, by functions that run workers.
#[derive(Clone, Copy, Drop)]
pub struct ByWorkers<F, A> {
    /// Makes the rows of the members with these numbers.
    pub make: F,
    /// Answers the blocks of a list, where there are several. Their rows are made first.
    pub answer: A,
}

impl<
    F: Fn(Rows, Global, &[u32]) -> Rows,
    A: Fn(&Session, Global, &[Block]) -> Option<AnsweredText>,
> RowMaker for ByWorkers<F, A> {
    ghost use Rattle.std.specs.Prelude.{◌≡◌, false, length, Option, IfSome};
    ghost use Rattle.cox_row.specs.Rising.{AreWithin};
    ghost use Rattle.cox_rows.specs.Holding.{Holding};
    ghost use Rattle.cox_answers.specs.Kept.{IsMore};
    ghost use Rattle.cox_shell.specs.OpenLists.{is_long};
    ghost use Rattle.cox_shell.specs.AnsweredText.{Numbered, AnswersList};

    ghost ready = { λ workers. ((rows : Holding) (alloc : _) (wanted : _) → AreWithin (length rows.elements.members) wanted.now
        → F.pre workers.make rows alloc wanted)
        × ((rows made : Holding) (alloc : _) (wanted : _) → F.post workers.make rows alloc wanted made → IsMore rows made)
        × ((session : _) (alloc : _) (blocks : _) → is_long blocks.now ≡ false → A.pre workers.answer session alloc blocks)
        × ((session : _) (alloc : _) (blocks : _) (answered : Option Numbered) → A.post workers.answer session alloc blocks answered
        → IfSome answered (λ t. AnswersList session.now blocks.now t)) };

    fn make(&self, alloc: Global, rows: Rows, wanted: &[u32]) -> Rows {
        let mut rows = rows;
        if begin_rows(&mut rows, wanted) {
            return rows;
        }
        (self.make)(rows, alloc, wanted)
    }

    fn shared(&self) -> Option<&Workspace> {
        None
    }
}

impl<
    F: Fn(Rows, Global, &[u32]) -> Rows,
    A: Fn(&Session, Global, &[Block]) -> Option<AnsweredText>,
> BlockAnswerer for ByWorkers<F, A> {
    fn answer_at_once(
        &self,
        session: &mut Session,
        alloc: Global,
        blocks: &[Block],
    ) -> Option<AnsweredText> {
        if blocks.len() < 2 {
            return None;
        }
        session.make_ahead(self, alloc, blocks);
        if !are_worth_threads(blocks) {
            return None;
        }
        (self.answer)(session, alloc, blocks)
    }
}

/// Whether it may take longer to answer these blocks than to start threads for them: they have many lines, or one that may take long.
fn are_worth_threads(blocks: &[Block]) -> bool {
    let mut lines = 0usize;
    for block in blocks {
        lines = lines.saturating_add(block.lines().len());
        if has_slow_line(block) {
            return true;
        }
    }
    lines >= MANY_LINES
}

/// Whether a line of a block may take long, though its rows are there: it is long, it is one token alone, as commands on the whole group
/// are, or it asks for generated words.
fn has_slow_line(block: &Block) -> bool {
    for line in block.lines() {
        let content = line.content();
        let is_one_token = !content.is_empty() && !content.contains(&b' ');
        if is_one_token || content.len() >= SLOW_LINE || content.starts_with(b"work") {
            return true;
        }
    }
    false
}

/// Makes rows of the members with these numbers, and those that they are made from, by this thread, until workers are worth it; none where
/// many of them are missing. Says whether all of them are there.
fn begin_rows(rows: &mut Rows, wanted: &[u32]) -> bool
    requires { AreWithin (length rows.old.elements.members) wanted.now }
    ensures { IsMore rows.old rows.new }
{
    if are_many(rows, wanted) {
        return false;
    }
    let most = cost_of_workers(rows).saturating_mul(TIMES_ADDED);
    let last = rows.steps().saturating_add(most);
    'each: for &i in wanted {
        if !begin_chain(rows, i, 0, last) {
            return false;
        }
    }
    true
}

/// How many polynomials are added up in the time that workers cost.
fn cost_of_workers(rows: &Rows) -> u64 {
    let members = u64::from(rows.context().len());
    START_COST + members + rows.steps() / ADDED_FOR_ONE
}

/// Makes the row of the member with the number i, and those that it needs, by this thread: first those of the shorter elements, by their
/// least left descents, from the shortest on. There are so many elements above it in such a chain.
///
/// It ends early, and says no, when more than `last` polynomials were added up in all, or when workers are worth it: the row of a longer
/// element mostly takes more than that of a shorter one, so what this one took is left for each element above it.
fn begin_chain(rows: &mut Rows, i: u32, above: u64, last: u64) -> bool
    requires { i < length rows.old.elements.members }
    ensures { IsMore rows.old rows.new }
{
    let _context = rows.context();
    if rows.is_settled(i) {
        return true;
    }
    let begun = match shorter_member(rows.context(), i) {
        Some(lower) => begin_chain(rows, lower, above.saturating_add(1), last),
        None => true,
    };
    if !begun {
        return false;
    }
    let before = rows.steps();
    if !rows.begin(i, last.saturating_sub(before)) {
        return false;
    }
    let taken = rows.steps().saturating_sub(before);
    taken.saturating_mul(above) < cost_of_workers(rows).saturating_mul(TIMES_LEFT)
}

/// Whether many rows of the members with these numbers are not there.
fn are_many(rows: &Rows, wanted: &[u32]) -> bool {
    let missing = wanted.iter().filter(|i| !rows.has(**i));
    missing.count() >= MANY_ROWS
}

/// The same rows, and those of the members with these numbers, by this many workers, as far as there is memory for them and none is beyond
/// a limit. Each worker passes the gate before each claim and each publication. A single row whose needs are there is left to whoever
/// asked.
pub fn make_rows<R: Threads + Wait + Sync, G: Gate + Sync>(
    rt: &R,
    gate: &G,
    workers: u32,
    rows: Rows,
    alloc: Global,
    wanted: &[u32],
) -> Rows
    requires workers { 1 ≤ workers }
    requires wanted { AreWithin (length rows.elements.members) wanted.now }
    ensures { IsMore rows result }
{
    if is_one_left(&rows, wanted) {
        return rows;
    }
    let mut rows = rows;
    let _ = share(rt, gate, workers, alloc, &mut rows, wanted);
    rows
}

/// Whether one row is wanted, and all rows are there that it is made from. Then workers have nothing to share.
fn is_one_left(rows: &Rows, wanted: &[u32]) -> bool
    requires { AreWithin (length rows.now.elements.members) wanted.now }
    ensures { IsTrue result → length wanted.now ≡ 1 }
{
    if wanted.len() != 1 {
        return false;
    }
    rows.has_needs(wanted[0])
}

/// Has the workers make rows of members with these numbers, and those that they are made from, in a store of their own.
fn share<R: Threads + Wait + Sync, G: Gate + Sync>(
    rt: &R,
    gate: &G,
    workers: u32,
    alloc: Global,
    rows: &mut Rows,
    wanted: &[u32],
) -> Result<(), AllocError>
    requires workers { 1 ≤ workers }
    requires wanted { AreWithin (length rows.old.elements.members) wanted.now }
    ensures { IsMore rows.old rows.new }
{
    let (store, seat) = RowStore::new(alloc, rows.context(), rows.limit())?;
    let seat = move_rows(rt, rows, &store, seat);
    let seat = fill_wanted(
        rt,
        gate,
        workers,
        alloc,
        rows.context(),
        &store,
        seat,
        wanted,
    );
    rows.adopt(store.into_rows(rt, seat));
    rows.settle_held();
    Ok(())
}

/// Has the workers fill a store with rows of members with these numbers, and those that they are made from: one by one, or for a single row
/// by what it needs.
fn fill_wanted<R: Threads + Wait + Sync, G: Gate + Sync>(
    rt: &R,
    gate: &G,
    workers: u32,
    alloc: Global,
    context: &Context,
    store: &RowStore,
    seat: Seat,
    wanted: &[u32],
) -> Seat
    requires workers { 1 ≤ workers }
    requires same { elements_of store.now ≡ context.now }
    requires own { IsSeat store.now seat }
    requires idle { HoldsNothing seat }
    requires wanted { AreWithin (length context.now.members) wanted.now }
    ensures own { IsSeat store.now result }
    ensures seen { SeesAll (view_of seat) (view_of result) }
{
    if wanted.len() == 1 {
        return fill_row(rt, alloc, context, store, seat, wanted[0], workers, gate);
    }
    fill(rt, alloc, context, store, seat, wanted, workers, gate)
}

/// Moves the rows that are there into a store, by a seat that holds nothing.
fn move_rows<R: Wait>(rt: &R, rows: &mut Rows, store: &RowStore, seat: Seat) -> Seat
    requires elements { elements_of store.now ≡ rows.old.elements }
    requires limit { limit_of store.now ≡ rows.old.limit }
    requires own { IsSeat store.now seat }
    requires idle { HoldsNothing seat }
    ensures same { IsSameContext rows.old rows.new }
    ensures own { IsSeat store.now result }
    ensures idle { HoldsNothing result }
    ensures there { (i : ℕ) → HasRow rows.old i → HasRow rows.new i ⊎ HasSeen result i }
    ensures moved { (i : ℕ) → HasRow rows.old i → IsSeenTaken result i }
{
    let _context = rows.context();
    let mut seat = seat;
    for i in 0..rows.context().len() {
        move_row(rt, rows, store, &mut seat, i);
    }
    seat
}

/// Moves the row of a member into a store, if it is there, and nobody has claimed it in the store.
fn move_row<R: Wait>(rt: &R, rows: &mut Rows, store: &RowStore, seat: &mut Seat, member: u32)
    requires elements { elements_of store.now ≡ rows.old.elements }
    requires limit { limit_of store.now ≡ rows.old.limit }
    requires own { IsSeat store.now seat.old }
    requires idle { HoldsNothing seat.old }
    requires member { member < length (elements_of store.now).members }
    ensures same { IsSameContext rows.old rows.new }
    ensures own { IsSeat store.now seat.new }
    ensures idle { HoldsNothing seat.new }
    ensures seen { SeesAll (view_of seat.old) (view_of seat.new) }
    ensures there { (i : ℕ) → HasRow rows.old i → HasRow rows.new i ⊎ HasSeen seat.new i }
    ensures others { (i : ℕ) → i ≢ member → HasRow rows.old i → HasRow rows.new i }
    ensures moved { HasRow rows.old member → IsSeenTaken seat.new member }
{
    if !rows.has(member) {
        return;
    }
    match store.claim(seat, member) {
        Claimed::Won => match rows.take(member) {
            Some(row) => store.publish(rt, seat, member, row),
            None => unreachable!(),
        },
        Claimed::Lost(_) => {}
    }
}
