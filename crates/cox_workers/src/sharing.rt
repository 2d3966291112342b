//! Rows by several workers: each makes rows that they need and that nobody has claimed.
ghost use Rattle.std.specs.Prelude.{◌≡◌, ℕ, ◌<◌, ◌+◌, ◌^◌, ◌%◌, length, IfSome};
ghost use Rattle.cox_claims.specs.Seats.{HoldsNothing, HasSeenClaimed, HasSeenEnd};
ghost use Rattle.cox_row.specs.Rising.{number_at};

use crate::worker_context::WorkerContext;
use crate::worker_scratch::WorkerScratch;
use cox_klstep::Descent;
use cox_outside::Gate;
use cox_row_store::{RowState, Seat};
use std::sync::Wait;
use std::thread::Threads;

impl<'a> WorkerContext<'a> {
    ghost use Rattle.cox_workers.specs.Ready.{IsWorkerReady, IsWorkFor};

    /// Makes those rows that the row of the member with the number i needs and that no worker has claimed.
    ///
    /// Gives one that another worker has claimed, if there is one. The caller is to wait for it and then to try again. The seat
    /// had not seen that row Published or Void before.
    #[cycle(supply)]
    fn supply<R: Threads + Wait + Sync, G: Gate>(
        &self,
        rt: &R,
        gate: &G,
        seat: &mut Seat,
        scratch: &mut WorkerScratch<'a>,
        i: u32,
    ) -> Option<u32>
        requires ready { IsWorkerReady self.now seat.old scratch.old }
        requires member { i < length self.now.context.now.members }
        requires idle { HoldsNothing seat.old }
        ensures work { IsWorkFor self.now i seat.old seat.new scratch.old scratch.new }
        ensures claimed { IfSome result (λ j. j < length self.now.context.now.members) }
        ensures seen { IfSome result (HasSeenClaimed seat.new) }
        ensures fresh { IfSome result (λ j. ¬ HasSeenEnd seat.old j) }
    {
        let _len = self.context.len();
        if i == 0 {
            return None;
        }
        let descent = Descent::of(self.context, i);
        let first = self.provide(rt, gate, seat, scratch, descent.lower);
        if first.is_some() {
            return first;
        }
        if !self.take_published(rt, seat, scratch, descent.lower) {
            return None;
        }
        let Ok(corrections) = self.corrections_of(&descent, &scratch.rows, &mut scratch.corrections)
        else {
            return None;
        };
        let count = corrections.len();
        // Each worker begins five eighths of the list further on than the one before it, so that they seldom meet at one row.
        let start = (self.number as usize).wrapping_mul(count / 2 + count / 8);
        let mut claimed = None;
        'corrections: for index in 0..count {
            let u = rotated(corrections.as_slice(), start, index);
            claimed = self.provide(rt, gate, seat, scratch, u).or(claimed);
        }
        scratch.corrections = corrections;
        claimed
    }

    /// Makes the row of the member with the number u, after those that it needs, if no worker has claimed one of these rows. Where one has,
    /// makes the others that it needs and that are not claimed, as far as it can tell what it needs.
    ///
    /// Gives one that another worker has claimed, if there is one. The caller is to wait for it and then to try again. The seat
    /// had not seen that row Published or Void before.
    #[cycle(supply)]
    pub(crate) fn provide<R: Threads + Wait + Sync, G: Gate>(
        &self,
        rt: &R,
        gate: &G,
        seat: &mut Seat,
        scratch: &mut WorkerScratch<'a>,
        u: u32,
    ) -> Option<u32>
        requires ready { IsWorkerReady self.now seat.old scratch.old }
        requires member { u < length self.now.context.now.members }
        requires idle { HoldsNothing seat.old }
        ensures work { IsWorkFor self.now u seat.old seat.new scratch.old scratch.new }
        ensures claimed { IfSome result (λ j. j < length self.now.context.now.members) }
        ensures seen { IfSome result (HasSeenClaimed seat.new) }
        ensures fresh { IfSome result (λ j. ¬ HasSeenEnd seat.old j) }
    {
        match self.look(seat, u) {
            RowState::Free => {}
            // Who has claimed it may be making what it needs.
            RowState::Claimed => return self.supply(rt, gate, seat, scratch, u).or(Some(u)),
            _ => return None,
        }
        let claimed = self.supply(rt, gate, seat, scratch, u);
        if claimed.is_some() {
            return claimed;
        }
        match self.look(seat, u) {
            RowState::Free => {
                let _ = self.ensure(rt, gate, seat, scratch, u);
                None
            }
            RowState::Claimed => Some(u),
            _ => None,
        }
    }
}

/// The number at an index of the list that begins at the place `start` and goes round to the first place.
fn rotated(numbers: &[u32], start: usize, index: usize) -> u32
    requires { index < length numbers.now }
    ensures some { (k : ℕ) × (k < length numbers.now) × (result ≡ number_at numbers.now k) }
    ensures place { start + index < 2 ^ 64 → result ≡ number_at numbers.now ((start + index) % length numbers.now) }
{
    let place = start.wrapping_add(index) % numbers.len();
    numbers[place]
}
