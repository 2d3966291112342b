//! What a worker works at.
ghost use Rattle.std.specs.Prelude.{◌≡◌, ℕ, ◌<◌, ◌≤◌, length};
ghost use Rattle.cox_claims.specs.Knowledge.{Looks};
ghost use Rattle.cox_claims.specs.Seats.{view_of};
ghost use Rattle.cox_klstep.specs.FoundTogether.{AreFound};
ghost use Rattle.cox_klstep.specs.Plans.{IsPlan};
ghost use Rattle.cox_row_store.specs.Stores.{elements_of, IsSeat};

use cox_context::Context;
use cox_klstep::{FoundPolynomial, RowPlan, Tables};
use cox_row_store::{RowState, RowStore, Seat};
use std::alloc::Global;
use std::thread::Threads;

/// What a worker works at: a store of rows over a context, under the worker's number, from 1.
#[derive(Drop)]
pub struct WorkerContext<'a> {
    pub(crate) alloc: Global,
    pub(crate) context: &'a Context,
    pub(crate) store: &'a RowStore,
    pub(crate) number: u32,
    /// How many threads may share the work for one row.
    pub(crate) threads: u32,
    ghost same: { elements_of store.now ≡ context.now },
}

impl<'a> WorkerContext<'a> {
    ghost use Rattle.cox_workers.specs.SeatChanges.{IsSeatKept, VoidsNone};

    /// The context of the worker with this number.
    pub fn new(
        alloc: Global,
        context: &'a Context,
        store: &'a RowStore,
        number: u32,
    ) -> WorkerContext<'a>
        requires { elements_of store.now ≡ context.now }
        ensures context { result.context.now ≡ context.now }
        ensures store { result.store.now ≡ store.now }
        ensures number { result.number ≡ number }
    {
        WorkerContext::with_threads(alloc, context, store, number, 1)
    }

    /// The same, where so many threads may share the work for one row.
    pub(crate) fn with_threads(
        alloc: Global,
        context: &'a Context,
        store: &'a RowStore,
        number: u32,
        threads: u32,
    ) -> WorkerContext<'a>
        requires { elements_of store.now ≡ context.now }
        ensures context { result.context.now ≡ context.now }
        ensures store { result.store.now ≡ store.now }
        ensures number { result.number ≡ number }
    {
        WorkerContext {
            alloc,
            context,
            store,
            number,
            threads,
        }
    }

    /// Polynomials of a row that is planned, by so many threads, which are no more than may share the work for one row.
    pub(crate) fn find_together<R: Threads + Sync>(
        &self,
        rt: &R,
        threads: u32,
        plan: &RowPlan,
        tables: &Tables,
    ) -> Vec<FoundPolynomial>
        requires plan { IsPlan self.now.context.now tables.now plan.now }
        requires threads { threads ≤ self.now.threads }
        ensures { AreFound self.now.context.now plan.now.step.member result.items }
    {
        plan.find_together(rt, threads, self.alloc, self.context, tables)
    }

    /// The state of the row of a member, by one look.
    pub(crate) fn look(&self, seat: &mut Seat, member: u32) -> RowState
        requires own { IsSeat self.now.store.now seat.old }
        requires member { member < length self.now.context.now.members }
        ensures own { IsSeat self.now.store.now seat.new }
        ensures step { Looks (view_of seat.old) member result (view_of seat.new) }
        ensures kept { (i : ℕ) → IsSeatKept self.now.context.now i seat.old seat.new }
        ensures none { VoidsNone seat.old seat.new }
    {
        self.store.look(seat, member)
    }
}
