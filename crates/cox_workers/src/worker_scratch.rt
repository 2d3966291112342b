//! What a worker keeps from row to row.
ghost use Rattle.std.specs.Prelude.{IfOk};
ghost use Rattle.cox_row_store.specs.Stores.{IsSeat};

use crate::read_rows::ReadRows;
use crate::worker_context::WorkerContext;
use cox_klstep::{Steps, Tables};
use cox_row_store::Seat;
use std::alloc::AllocError;

/// What a worker keeps from row to row: rows that it reads, tables, and a list that is used again.
#[derive(Drop)]
pub struct WorkerScratch<'a> {
    pub(crate) rows: ReadRows<'a>,
    pub(crate) tables: Tables,
    pub(crate) steps: Steps,
    /// The corrections of one step after another. It is taken out while they are gone through.
    pub(crate) corrections: Vec<u32>,
}

impl<'a> WorkerScratch<'a> {
    ghost use Rattle.cox_workers.specs.Ready.{IsWorkerReady};

    /// What a worker has at the start: no row that it reads. Each row that it reads can be read until the scratch memory is dropped.
    pub fn new(worker: &WorkerContext<'a>, seat: &Seat) -> Result<WorkerScratch<'a>, AllocError>
        requires { IsSeat worker.now.store.now seat.now }
        ensures { IfOk result (IsWorkerReady worker.now seat.now) }
    {
        let _ = seat;
        Ok(WorkerScratch {
            rows: ReadRows::new(worker.alloc, worker.context, worker.store.limit())?,
            tables: Tables::of(worker.alloc, worker.context)?,
            steps: Steps::new(),
            corrections: Vec::new(worker.alloc),
        })
    }
}
