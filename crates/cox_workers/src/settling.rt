//! One row of a member that is wanted: it is made, or given up.
ghost use Rattle.std.specs.Prelude.{◌<◌, length};
ghost use Rattle.cox_claims.specs.Seats.{HoldsNothing, HasSeenEnd};
ghost use Rattle.cox_row_store.specs.Stores.{IsSeat};

use crate::worker_context::WorkerContext;
use crate::worker_scratch::WorkerScratch;
use cox_outside::Gate;
use cox_row_store::{Claimed, RowState, Seat};
use std::sync::Wait;
use std::thread::Threads;

impl<'a> WorkerContext<'a> {
    ghost use Rattle.cox_workers.specs.Ready.{IsSeatWith, IsWorkerReady, IsWorkFor};
    ghost use Rattle.cox_workers.specs.SeatChanges.{IsSeatKept};

    /// Makes the row of a member, unless another worker has claimed it.
    pub(crate) fn make_free<R: Threads + Wait + Sync, G: Gate>(
        &self,
        rt: &R,
        gate: &G,
        seat: &mut Seat,
        scratch: &mut WorkerScratch<'a>,
        member: u32,
    )
        requires ready { IsWorkerReady self.now seat.old scratch.old }
        requires member { member < length self.now.context.now.members }
        requires idle { HoldsNothing seat.old }
        ensures { IsWorkFor self.now member seat.old seat.new scratch.old scratch.new }
    {
        if self.look(seat, member) == RowState::Free {
            let _ = self.ensure(rt, gate, seat, scratch, member);
        }
    }

    /// Sees to it that the row of a member is Published or Void, if it is not so already: makes it, or gives it up where there is no
    /// scratch memory.
    pub(crate) fn settle<R: Threads + Wait + Sync, G: Gate>(
        &self,
        rt: &R,
        gate: &G,
        seat: &mut Seat,
        scratch: &mut Option<WorkerScratch<'a>>,
        member: u32,
    )
        requires worker { IsSeatWith self.now seat.old scratch.old }
        requires member { member < length self.now.context.now.members }
        requires idle { HoldsNothing seat.old }
        ensures worker { IsSeatWith self.now seat.new scratch.new }
        ensures kept { IsSeatKept self.now.context.now member seat.old seat.new }
        ensures settled { HasSeenEnd seat.new member }
    {
        // A look costs less than a claim.
        match self.look(seat, member) {
            RowState::Published | RowState::Void => return,
            _ => {}
        }
        match scratch {
            Some(scratch) => {
                let _ = self.ensure(rt, gate, seat, scratch, member);
            }
            None => self.give_up(rt, gate, seat, member),
        }
    }

    /// Gives up the row of a member, unless another has claimed it.
    fn give_up<R: Wait, G: Gate>(&self, rt: &R, gate: &G, seat: &mut Seat, member: u32)
        requires own { IsSeat self.now.store.now seat.old }
        requires member { member < length self.now.context.now.members }
        requires idle { HoldsNothing seat.old }
        ensures own { IsSeat self.now.store.now seat.new }
        ensures kept { IsSeatKept self.now.context.now member seat.old seat.new }
        ensures settled { HasSeenEnd seat.new member }
    {
        let _len = self.context.len();
        match self.claim(rt, gate, seat, member) {
            Claimed::Won => self.store.void(seat, member),
            Claimed::Lost(RowState::Published) | Claimed::Lost(RowState::Void) => {}
            Claimed::Lost(_) => {
                let _ = self.wait(rt, seat, member);
            }
        }
    }
}
