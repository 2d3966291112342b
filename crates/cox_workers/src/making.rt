//! One row, and those that it is made from.
ghost use Rattle.std.specs.Prelude.{◌≡◌, ◌≢◌, ◌<◌, length, OnOk, OnErr, IfOk, IfErr};
ghost use Rattle.cox_base.specs.IntegerMatrix.{integer_matrix};
ghost use Rattle.cox_context.specs.Numbers.{word_at};
ghost use Rattle.cox_row_builder.specs.Faults.{IsFault};
ghost use Rattle.cox_row_symmetry.specs.DescentOf.{IsDescentAt};
ghost use Rattle.cox_klstep.specs.NeedsOf.{AreNeeds, HasNeeds};
ghost use Rattle.cox_klstep.specs.Plans.{IsPlan};
ghost use Rattle.cox_klstep.specs.TablesOf.{AreTables};
ghost use Rattle.cox_claims.specs.Knowledge.{TriesClaim, Publishes};
ghost use Rattle.cox_claims.specs.Seats.{view_of, splits_of, IsSameSeat, Holds, HoldsBeyond, HasSeen, HasSeenVoid, HasSeenClaimed, Reads};
ghost use Rattle.cox_fill_core.specs.declared.event.RowState.{RowState};
ghost use Rattle.cox_fill_core.specs.declared.event.RowState.TheVariants.{Free};
ghost use Rattle.cox_row.specs.RowOf.{IsRowAt};
ghost use Rattle.cox_row.specs.Within.{IsRowWithin};
ghost use Rattle.cox_row_store.specs.Stores.{limit_of, IsSeat};

use crate::missing::Missing;
use crate::read_rows::ReadRows;
use crate::worker_context::WorkerContext;
use crate::worker_scratch::WorkerScratch;
use cox_klstep::{Descent, RowPlan, RowStart, StepFault, Steps, Tables, begin_row, needs};
use cox_outside::{Gate, Point};
use cox_row::{LowerRows, Row};
use cox_row_store::{Claimed, RowState, Seat};
use std::alloc::AllocError;
use std::mem;
use std::sync::Wait;
use std::thread::Threads;

impl<'a> WorkerContext<'a> {
    ghost use Rattle.cox_workers.specs.Ready.{IsWorkerReady, IsWorkFor};
    ghost use Rattle.cox_workers.specs.SeatChanges.{HoldsFrom, IsSeatKept, VoidsNone, IsRowMissing, IsUnmade};
    ghost use Rattle.cox_workers.specs.RowsRead.{IsRead, AreReadRows};

    /// Sees to it that the row of the member with the number i is Published, with those that it is made from.
    ///
    /// The row is claimed before anything is done for it. Where another has claimed it, this waits until the row is Published or Void. The
    /// gate is passed before each claim and each publication. The seat waits only for rows whose numbers are less than those of all rows
    /// that it holds.
    ///
    /// Whatever the answer, the seat holds what it held: a row that was claimed on the way is Published, or else Void. The error may be
    /// about a row that the row of i needs; it names the member.
    #[cycle(ensure)]
    pub fn ensure<R: Threads + Wait + Sync, G: Gate>(
        &self,
        rt: &R,
        gate: &G,
        seat: &mut Seat,
        scratch: &mut WorkerScratch<'a>,
        i: u32,
    ) -> Result<(), Missing>
        requires ready { IsWorkerReady self.now seat.old scratch.old }
        requires member { i < length self.now.context.now.members }
        requires order { HoldsBeyond seat.old i }
        ensures work { IsWorkFor self.now i seat.old seat.new scratch.old scratch.new }
        ensures here { OnOk result (HasSeen seat.new i × VoidsNone seat.old seat.new) }
        ensures void { OnErr result (HasSeenVoid seat.new i) }
        ensures missing { IfErr result (IsRowMissing self.now.context.now (limit_of self.now.store.now) i seat.old seat.new) }
    {
        let _len = self.context.len();
        match self.claim(rt, gate, seat, i) {
            Claimed::Won => {}
            Claimed::Lost(RowState::Published) => return Ok(()),
            Claimed::Lost(RowState::Void) => return Err(Missing::Void(i)),
            Claimed::Lost(_) => return self.wait(rt, seat, i),
        }
        match self.made(rt, gate, seat, scratch, i) {
            Ok(row) => {
                self.publish(rt, gate, seat, i, row);
                Ok(())
            }
            Err(missing) => {
                self.store.void(seat, i);
                Err(missing)
            }
        }
    }

    /// Passes the gate, and then claims the row of a member, by one step.
    pub(crate) fn claim<R: Wait, G: Gate>(
        &self,
        rt: &R,
        gate: &G,
        seat: &mut Seat,
        member: u32,
    ) -> Claimed
        requires own { IsSeat self.now.store.now seat.old }
        requires member { member < length self.now.context.now.members }
        ensures own { IsSeat self.now.store.now seat.new }
        ensures seat { IsSameSeat seat.old seat.new }
        ensures splits { splits_of seat.new ≡ splits_of seat.old }
        ensures step { TriesClaim (view_of seat.old) member result (view_of seat.new) }
        ensures won { result ≡ Claimed.Won → Holds seat.new member }
        ensures lost { (state : RowState) → result ≡ Claimed.Lost state → (state ≢ Free) × Reads seat.old member state seat.new }
    {
        gate.pass(rt, self.number, Point::Claim, member);
        self.store.claim(seat, member)
    }

    /// The row of the member with the number i, after those that it is made from.
    #[cycle(ensure)]
    fn made<R: Threads + Wait + Sync, G: Gate>(
        &self,
        rt: &R,
        gate: &G,
        seat: &mut Seat,
        scratch: &mut WorkerScratch<'a>,
        i: u32,
    ) -> Result<Row, Missing>
        requires ready { IsWorkerReady self.now seat.old scratch.old }
        requires member { i < length self.now.context.now.members }
        requires held { Holds seat.old i }
        requires order { HoldsFrom seat.old i }
        ensures work { IsWorkFor self.now i seat.old seat.new scratch.old scratch.new }
        ensures none { OnOk result (VoidsNone seat.old seat.new) }
        ensures row { IfOk result (IsRowAt self.now.context.now i) }
        ensures within { IfOk result (IsRowWithin (limit_of self.now.store.now)) }
        ensures needs { OnOk result (HasNeeds self.now.context.now (HasSeen seat.new) i) }
        ensures missing { IfErr result (IsUnmade self.now.context.now (limit_of self.now.store.now) i seat.old seat.new) }
    {
        let budget = self.take_in(rt, gate, seat, scratch, i)?;
        self.gather(rt, seat, scratch, i, budget);
        let row = self.made_from(
            rt,
            &scratch.rows,
            &mut scratch.tables,
            &mut scratch.steps,
            i,
        )?;
        Ok(row)
    }

    /// The row of the member with the number i, made from the rows that are read.
    fn made_from<R: Threads + Sync>(
        &self,
        rt: &R,
        rows: &ReadRows<'a>,
        tables: &mut Tables,
        steps: &mut Steps,
        i: u32,
    ) -> Result<Row, StepFault>
        requires rows { AreReadRows self.now.context.now (limit_of self.now.store.now) rows.now }
        requires tables { AreTables self.now.context.now tables.old }
        requires member { i < length self.now.context.now.members }
        requires needs { HasNeeds self.now.context.now (IsRead rows.now) i }
        ensures row { IfOk result (IsRowAt self.now.context.now i) }
        ensures within { IfOk result (IsRowWithin (limit_of self.now.store.now)) }
        ensures fault { let e = self.now.context.now in
            IfErr result (IsFault (integer_matrix e.matrix) e.members (limit_of self.now.store.now) (λ w. w ≡ i)) }
        ensures tables { AreTables self.now.context.now tables.new }
    {
        match begin_row(self.alloc, self.context, i, rows, tables)? {
            RowStart::Done(row) => Ok(row),
            RowStart::Planned(plan) => self.finished(rt, plan, tables, steps),
        }
    }

    /// The row that is planned, of which threads find polynomials together.
    fn finished<R: Threads + Sync>(
        &self,
        rt: &R,
        plan: RowPlan<'_>,
        tables: &mut Tables,
        steps: &mut Steps,
    ) -> Result<Row, StepFault>
        requires plan { IsPlan self.now.context.now tables.old plan }
        requires tables { AreTables self.now.context.now tables.old }
        ensures row { IfOk result (IsRowAt self.now.context.now plan.entry.step.member) }
        ensures within { IfOk result (IsRowWithin plan.entry.limit) }
        ensures fault { let e = self.now.context.now in
            IfErr result (IsFault (integer_matrix e.matrix) e.members plan.entry.limit (λ w. w ≡ plan.entry.step.member)) }
        ensures tables { AreTables self.now.context.now tables.new }
    {
        let found = self.find_together(rt, self.threads, &plan, tables);
        plan.finish(self.alloc, self.context, tables, found, steps)
    }

    /// Reads the rows that the row of the member with the number i is made from. Tells how many of them are those of corrections.
    #[cycle(ensure)]
    fn take_in<R: Threads + Wait + Sync, G: Gate>(
        &self,
        rt: &R,
        gate: &G,
        seat: &mut Seat,
        scratch: &mut WorkerScratch<'a>,
        i: u32,
    ) -> Result<usize, Missing>
        requires ready { IsWorkerReady self.now seat.old scratch.old }
        requires member { i < length self.now.context.now.members }
        requires held { Holds seat.old i }
        requires order { HoldsFrom seat.old i }
        ensures work { IsWorkFor self.now i seat.old seat.new scratch.old scratch.new }
        ensures none { OnOk result (VoidsNone seat.old seat.new) }
        ensures needs { OnOk result (HasNeeds self.now.context.now (IsRead scratch.new.rows) i) }
        ensures missing { IfErr result (IsUnmade self.now.context.now (limit_of self.now.store.now) i seat.old seat.new) }
    {
        let _len = self.context.len();
        if i == 0 {
            return Ok(0);
        }
        let descent = Descent::of(self.context, i);
        self.obtain(rt, gate, seat, scratch, descent.lower)?;
        let corrections = self.corrections_of(&descent, &scratch.rows, &mut scratch.corrections)?;
        'corrections: for &u in corrections.iter() {
            self.obtain(rt, gate, seat, scratch, u)?;
        }
        let count = corrections.len();
        scratch.corrections = corrections;
        Ok(count)
    }

    /// Lists the corrections of the step by a descent, where the row of the shorter element is read. The list is the one that was kept, and
    /// an empty one takes its place.
    pub(crate) fn corrections_of(
        &self,
        descent: &Descent,
        rows: &ReadRows<'a>,
        kept: &mut Vec<u32>,
    ) -> Result<Vec<u32>, AllocError>
        requires rows { AreReadRows self.now.context.now (limit_of self.now.store.now) rows.now }
        requires descent { IsDescentAt self.now.context.now descent.now }
        requires lower { IsRead rows.now descent.now.lower }
        ensures { let e = self.now.context.now in IfOk result (λ numbers. AreNeeds (integer_matrix e.matrix) e.members descent.now.letter
            (word_at e.members descent.now.member) numbers.items) }
    {
        let mut corrections = mem::replace(kept, Vec::new(self.alloc));
        needs(
            self.context,
            descent,
            rows.row(descent.lower),
            &mut corrections,
        )?;
        Ok(corrections)
    }

    /// Reads the row of the member with the number u, after those that it is made from.
    #[cycle(ensure)]
    fn obtain<R: Threads + Wait + Sync, G: Gate>(
        &self,
        rt: &R,
        gate: &G,
        seat: &mut Seat,
        scratch: &mut WorkerScratch<'a>,
        u: u32,
    ) -> Result<(), Missing>
        requires ready { IsWorkerReady self.now seat.old scratch.old }
        requires member { u < length self.now.context.now.members }
        requires order { HoldsBeyond seat.old u }
        ensures work { IsWorkFor self.now u seat.old seat.new scratch.old scratch.new }
        ensures here { OnOk result (IsRead scratch.new.rows u × VoidsNone seat.old seat.new) }
        ensures missing { IfErr result (IsRowMissing self.now.context.now (limit_of self.now.store.now) u seat.old seat.new) }
    {
        if self.take_published(rt, seat, scratch, u) {
            return Ok(());
        }
        self.ensure(rt, gate, seat, scratch, u)?;
        self.read_row(rt, seat, scratch, u);
        Ok(())
    }

    /// Publishes a row that the seat holds, where the seat has seen all rows Published that it is made from.
    fn publish<R: Wait, G: Gate>(&self, rt: &R, gate: &G, seat: &mut Seat, i: u32, row: Row)
        requires own { IsSeat self.now.store.now seat.old }
        requires member { i < length self.now.context.now.members }
        requires held { Holds seat.old i }
        requires needs { HasNeeds self.now.context.now (HasSeen seat.old) i }
        requires row { IsRowAt self.now.context.now i row }
        requires within { IsRowWithin (limit_of self.now.store.now) row }
        ensures own { IsSeat self.now.store.now seat.new }
        ensures seat { IsSameSeat seat.old seat.new }
        ensures splits { splits_of seat.new ≡ splits_of seat.old }
        ensures step { Publishes (view_of seat.old) i (view_of seat.new) }
        ensures seen { HasSeen seat.new i }
    {
        gate.pass(rt, self.number, Point::Publish, i);
        self.store.publish(rt, seat, i, row);
    }
}
