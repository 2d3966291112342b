//! The store and its calls.
ghost use Rattle.std.specs.Prelude.{◌≡◌, ◌≢◌, ℕ, ◌<◌, ◌≤◌, [], max, length, vec_len, vec_capacity, ℤ, pos, ◌≤ℤ◌, IfOk};
ghost use Rattle.cox_claims.specs.Knowledge.{holds, SeesAll, newcomer, Looks, TriesClaim, Publishes, Voids, parted, told, joined};
ghost use Rattle.cox_claims.specs.Seats.{view_of, number_of, splits_of, one_more_split, IsSameSeat, Holds, HoldsNothing, HasSeen};
ghost use Rattle.cox_claims.specs.Seats.{HoldsBeyond, HasSeenVoid, HasMarked, Reads};
ghost use Rattle.cox_claims.specs.Tables.{rows_of, slept_on, IsSeatOf};
ghost use Rattle.cox_fill_core.specs.declared.event.RowState.{RowState};
ghost use Rattle.cox_fill_core.specs.declared.event.RowState.TheVariants.{Free};
ghost use Rattle.cox_row.specs.RowOf.{IsRowAt};
ghost use Rattle.cox_row.specs.Within.{IsRowWithin};
ghost use Rattle.cox_rowcell.specs.RowFor.{IsRowFor};
ghost use Rattle.cox_rowcell.specs.Guards.{place_of_guard};
ghost use Rattle.cox_row_store.specs.Places.{place_at, ArePlaces};

use crate::NoMemory;
use crate::taking::take_rows;
use cox_claims::{Claimed, Claims, Evidence, RowState, Seat, Slept};
use cox_context::Context;
use cox_row::Row;
use cox_rowcell::{Filled, RowCell, RowGuard, Tag};
use std::alloc::Global;
use std::sync::Wait;

/// What shows that the row of a member is in its cell.
#[derive(Drop)]
struct RowInCell(Filled);

impl Evidence for RowInCell {
    ghost number = { λ e. e.0.member };
}

/// Rows of the members of a context, shared by any number of threads. Each is claimed, made and published by a thread, or given up.
#[derive(Drop)]
pub struct RowStore {
    claims: Claims,
    cells: Vec<RowCell>,
    // A cell that stays empty. Through its tag contracts see the context.
    anchor: RowCell,
    limit: i64,
    // No rows: the room for those that are taken out in the end.
    room: Vec<Option<Row>>,
    ghost a_cell_each: { vec_len cells ≡ rows_of claims },
    ghost none_yet: { room.items ≡ [] },
    ghost enough: { rows_of claims ≤ vec_capacity room },
    ghost a_row_each: { length anchor.elements.members ≡ rows_of claims },
    ghost placed: { ArePlaces anchor.elements limit cells.items },
    ghost least: { pos 0 ≤ℤ limit },
}

impl RowStore {
    ghost use Rattle.cox_row_store.specs.Stores.{elements_of, limit_of, IsSeat};
    ghost use Rattle.cox_row_store.specs.Taken.{AreTaken};

    /// A store of no rows yet for the members of a context, all Free, and its first seat. No coefficient of a row is to be above the limit.
    ///
    /// `NoMemory` comes where there is no memory for claims, cells, and the list that `into_rows` gives in the end.
    pub fn new(alloc: Global, context: &Context, limit: i64) -> Result<(RowStore, Seat), NoMemory>
        requires { pos 0 ≤ℤ limit }
        ensures elements { IfOk result (λ made. elements_of made.0 ≡ context.now) }
        ensures limit { IfOk result (λ made. limit_of made.0 ≡ limit) }
        ensures seat { IfOk result (λ made. IsSeat made.0 made.1) }
        ensures view { IfOk result (λ made. view_of made.1 ≡ newcomer) }
        ensures first { IfOk result (λ made. number_of made.1 ≡ 0) }
        ensures splits { IfOk result (λ made. splits_of made.1 ≡ 0) }
    {
        let cells = cells_of(alloc, context, limit)?;
        let (claims, seat) = Claims::new(alloc, context.len())?;
        let store = RowStore {
            claims,
            cells,
            anchor: RowCell::new(&Tag::new(context, 0, limit)),
            limit,
            room: Vec::with_capacity(alloc, context.len() as usize)?,
        };
        Ok((store, seat))
    }

    /// How many members there are.
    pub fn len(&self) -> u32
        ensures { result ≡ length (elements_of self.now).members }
    {
        self.claims.rows()
    }

    /// The greatest absolute value that a coefficient may have.
    pub fn limit(&self) -> i64
        ensures limit { result ≡ limit_of self.now }
        ensures least { pos 0 ≤ℤ limit_of self.now }
    {
        self.limit
    }

    /// Claims the row of a member, by one step. `Lost` comes only where the row was not Free at that step, with the state that it had.
    pub fn claim(&self, seat: &mut Seat, member: u32) -> Claimed
        requires own { IsSeat self.now seat.old }
        requires member { member < length (elements_of self.now).members }
        ensures own { IsSeat self.now seat.new }
        ensures seat { IsSameSeat seat.old seat.new }
        ensures splits { splits_of seat.new ≡ splits_of seat.old }
        ensures step { TriesClaim (view_of seat.old) member result (view_of seat.new) }
        ensures won { result ≡ Claimed.Won → Holds seat.new member }
        ensures lost { (state : RowState) → result ≡ Claimed.Lost state → (state ≢ Free) × Reads seat.old member state seat.new }
    {
        self.claims.claim(seat, member)
    }

    /// The state of a member's row at this call's one step, never earlier than what the seat has seen of it.
    pub fn look(&self, seat: &mut Seat, member: u32) -> RowState
        requires own { IsSeat self.now seat.old }
        requires member { member < length (elements_of self.now).members }
        ensures own { IsSeat self.now seat.new }
        ensures seat { IsSameSeat seat.old seat.new }
        ensures splits { splits_of seat.new ≡ splits_of seat.old }
        ensures step { Looks (view_of seat.old) member result (view_of seat.new) }
        ensures read { Reads seat.old member result seat.new }
    {
        self.claims.look(seat, member)
    }

    /// Publishes the row of a member that the seat holds by a claim. From then on it can be read.
    pub fn publish<R: Wait>(&self, rt: &R, seat: &mut Seat, member: u32, row: Row)
        requires own { IsSeat self.now seat.old }
        requires member { member < length (elements_of self.now).members }
        requires held { Holds seat.old member }
        requires row { IsRowAt (elements_of self.now) member row }
        requires within { IsRowWithin (limit_of self.now) row }
        ensures own { IsSeat self.now seat.new }
        ensures seat { IsSameSeat seat.old seat.new }
        ensures splits { splits_of seat.new ≡ splits_of seat.old }
        ensures step { Publishes (view_of seat.old) member (view_of seat.new) }
        ensures seen { HasSeen seat.new member }
    {
        let filled = self.cell(member).fill(rt, row);
        self.claims.publish(seat, member, &RowInCell(filled));
    }

    /// Gives up the row of a member that the seat holds by a claim. It is Void for good.
    pub fn void(&self, seat: &mut Seat, member: u32)
        requires own { IsSeat self.now seat.old }
        requires member { member < length (elements_of self.now).members }
        requires held { Holds seat.old member }
        ensures own { IsSeat self.now seat.new }
        ensures seat { IsSameSeat seat.old seat.new }
        ensures splits { splits_of seat.new ≡ splits_of seat.old }
        ensures step { Voids (view_of seat.old) member (view_of seat.new) }
        ensures seen { HasSeenVoid seat.new member × HasMarked seat.new member }
    {
        self.claims.void(seat, member);
    }

    /// Sleeps while the row of a member is Claimed, until it is published or given up. It may also return before. All rows that the seat
    /// holds have greater numbers. What it gives shows that the caller slept on this row.
    pub fn sleep_on<R: Wait>(&self, rt: &R, seat: &Seat, member: u32) -> Slept
        requires member { member < length (elements_of self.now).members }
        requires order { HoldsBeyond seat.now member }
        ensures { slept_on result ≡ member }
    {
        self.claims.sleep_on(rt, seat, member)
    }

    /// Lends the row of a member that the seat has seen Published, until the guard is let go.
    pub fn read<R: Wait>(&self, rt: &R, seat: &Seat, member: u32) -> RowGuard<'_>
        requires own { IsSeat self.now seat.now }
        requires member { member < length (elements_of self.now).members }
        requires seen { HasSeen seat.now member }
        ensures { place_of_guard result ≡ place_at (elements_of self.now) (limit_of self.now) member }
    {
        let _ = seat;
        self.cell(member).read(rt)
    }

    /// A new seat, which has seen what this one has and holds nothing. Both count one split more.
    pub fn split(&self, seat: &mut Seat) -> Seat
        requires { IsSeat self.now seat.old }
        ensures own { IsSeat self.now seat.new × IsSeat self.now result }
        ensures seat { IsSameSeat seat.old seat.new }
        ensures old { view_of seat.new ≡ parted (view_of seat.old) }
        ensures new { view_of result ≡ told (view_of seat.old) }
        ensures seen { SeesAll (view_of seat.old) (view_of result) }
        ensures idle { HoldsNothing result }
        ensures splits { let count = one_more_split (splits_of seat.old) in
            (splits_of seat.new ≡ count) × (splits_of result ≡ count) }
    {
        self.claims.split(seat)
    }

    /// Ends a seat that holds nothing: the first seat has then seen what both had.
    pub fn meet(&self, seat: &mut Seat, other: Seat)
        requires own { IsSeat self.now seat.old × IsSeat self.now other }
        requires idle { HoldsNothing other }
        ensures own { IsSeat self.now seat.new }
        ensures seat { IsSameSeat seat.old seat.new }
        ensures view { view_of seat.new ≡ joined (view_of seat.old) (view_of other) }
        ensures seen { SeesAll (view_of seat.old) (view_of seat.new) × SeesAll (view_of other) (view_of seat.new) }
        ensures held { (i : ℕ) → holds (view_of seat.new) i ≡ holds (view_of seat.old) i }
        ensures splits { splits_of seat.new ≡ max (splits_of seat.old) (splits_of other) }
    {
        self.claims.meet(seat, other);
    }

    /// Ends the store. Gives one entry for each member: its row where it is Published, or none. It looks at each member once, and needs no
    /// memory.
    pub fn into_rows<R: Wait>(self, rt: &R, seat: Seat) -> Vec<Option<Row>>
        requires { IsSeat self seat }
        ensures { AreTaken (elements_of self) (limit_of self) (view_of seat) result.items }
    {
        let RowStore {
            claims,
            cells,
            anchor: _,
            limit: _,
            room,
        } = self;
        let mut seat = seat;
        take_rows(rt, &claims, &mut seat, cells, room)
    }

    /// The cell of a member.
    fn cell(&self, member: u32) -> &RowCell
        requires { member < length (elements_of self.now).members }
        ensures { result.now ≡ place_at (elements_of self.now) (limit_of self.now) member }
    {
        &self.cells[member as usize]
    }
}

/// An empty cell for each member.
fn cells_of(alloc: Global, context: &Context, limit: i64) -> Result<Vec<RowCell>, NoMemory>
    ensures count { IfOk result (λ cells. vec_len cells ≡ length context.now.members) }
    ensures placed { IfOk result (λ cells. ArePlaces context.now limit cells.items) }
{
    let mut cells = Vec::with_capacity(alloc, context.len() as usize)?;
    for member in 0..context.len() {
        cells.push(RowCell::new(&Tag::new(context, member, limit)))?;
    }
    Ok(cells)
}
