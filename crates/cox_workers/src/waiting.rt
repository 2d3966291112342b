//! A row that another worker has claimed.
ghost use Rattle.std.specs.Prelude.{◌≡◌, ◌<◌, length, OnOk, OnErr, IfErr};
ghost use Rattle.cox_claims.specs.Knowledge.{looked};
ghost use Rattle.cox_claims.specs.Seats.{view_of, HoldsBeyond, HasSeen, HasSeenVoid, HasSeenClaimed};
ghost use Rattle.cox_claims.specs.Tables.{slept_on};
ghost use Rattle.cox_fill_core.specs.declared.event.RowState.{RowState};
ghost use Rattle.cox_row_store.specs.Stores.{limit_of, IsSeat};

use crate::missing::Missing;
use crate::worker_context::WorkerContext;
use cox_row_store::{RowState, Seat, Slept};
use std::sync::Wait;

/// What one turn of a wait came to.
enum Waited {
    Published,
    Void,
    /// The row was neither, and the worker slept.
    Slept(Slept),
}

impl<'a> WorkerContext<'a> {
    ghost use Rattle.cox_workers.specs.SeatChanges.{IsSeatKept, VoidsNone, IsRowMissing};

    /// Waits until a row that another has claimed is Published or Void. It sleeps meanwhile.
    pub(crate) fn wait<R: Wait>(&self, rt: &R, seat: &mut Seat, i: u32) -> Result<(), Missing>
        requires own { IsSeat self.now.store.now seat.old }
        requires member { i < length self.now.context.now.members }
        requires claimed { HasSeenClaimed seat.old i }
        requires order { HoldsBeyond seat.old i }
        ensures own { IsSeat self.now.store.now seat.new }
        ensures kept { IsSeatKept self.now.context.now i seat.old seat.new }
        ensures here { OnOk result (HasSeen seat.new i × VoidsNone seat.old seat.new) }
        ensures void { OnErr result (HasSeenVoid seat.new i) }
        ensures missing { IfErr result (IsRowMissing self.now.context.now (limit_of self.now.store.now) i seat.old seat.new) }
    {
        let _len = self.context.len();
        for _ in rt.forever() {
            match self.wait_once(rt, seat, i) {
                Waited::Published => return Ok(()),
                Waited::Void => return Err(Missing::Void(i)),
                Waited::Slept(_) => {}
            }
        }
        unreachable!()
    }

    /// Looks at a row, and sleeps on that row where it is neither Published nor Void.
    fn wait_once<R: Wait>(&self, rt: &R, seat: &mut Seat, i: u32) -> Waited
        requires own { IsSeat self.now.store.now seat.old }
        requires member { i < length self.now.context.now.members }
        requires order { HoldsBeyond seat.old i }
        ensures own { IsSeat self.now.store.now seat.new }
        ensures kept { IsSeatKept self.now.context.now i seat.old seat.new }
        ensures none { VoidsNone seat.old seat.new }
        ensures published { result ≡ Waited.Published → HasSeen seat.new i }
        ensures void { result ≡ Waited.Void → view_of seat.new ≡ looked (view_of seat.old) i RowState.Void }
        ensures slept { (slept : Slept) → result ≡ Waited.Slept slept → slept_on slept ≡ i }
    {
        match self.look(seat, i) {
            RowState::Published => Waited::Published,
            RowState::Void => Waited::Void,
            _ => Waited::Slept(self.store.sleep_on(rt, seat, i)),
        }
    }
}
