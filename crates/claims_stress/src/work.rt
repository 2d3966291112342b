//! What one worker does: it claims each row, ends those that it wins, and watches that no ended row changes.
ghost use Rattle.std.specs.Prelude.{◌≡◌, ◌<◌, length};
ghost use Rattle.cox_claims.specs.Tables.{rows_of, IsSeatOf};
ghost use Rattle.claims_stress.specs.Jobs.{IsJobReady};

use cox_claims::{Claimed, Claims, Evidence, NoMemory, RowState, Seat};
use std::alloc::Global;
use std::thread;

/// A worker's number, and the seat that it works through.
#[derive(Drop)]
pub struct Job {
    pub worker: u32,
    pub seat: Seat,
}

/// What shows that a row was made: here nothing has to be made before a row is published.
#[derive(Drop)]
pub struct Made {
    pub row: u32,
}

impl Evidence for Made {
    ghost number = { λ made. made.row };
}

/// What a worker found.
#[derive(Drop)]
pub struct Report {
    /// The rows that it won.
    pub won: Vec<u32>,
    /// The state of each row when it last looked.
    pub last: Vec<RowState>,
    /// How often a row that it had seen Published or Void was in another state later.
    pub changed: u64,
}

/// Whether a row in this state may never change again.
pub fn is_ended(state: RowState) -> bool {
    matches!(state, RowState::Published | RowState::Void)
}

/// Goes over all rows, up or down by the worker's number.
pub fn work(alloc: Global, claims: &Claims, job: Job) -> Result<Report, NoMemory>
    requires { IsJobReady claims.now job }
{
    let Job { worker, mut seat } = job;
    let rows = claims.rows();
    let mut won = Vec::new(alloc);
    let mut last = vec![in alloc; RowState::Free; rows as usize]?;
    let mut changed = 0u64;
    for step in 0..rows {
        let row = if worker % 2 == 0 {
            step
        } else {
            rows - 1 - step
        };
        if take(claims, &mut seat, row) {
            won.push(row)?;
        }
        changed = changed.saturating_add(watch(claims, &mut seat, &mut last));
        thread::yield_now();
    }
    Ok(Report { won, last, changed })
}

// Claims a row, and voids or publishes it if that is won.
fn take(claims: &Claims, seat: &mut Seat, row: u32) -> bool
    requires own { IsSeatOf claims.now seat.old }
    requires row { row < rows_of claims.now }
    ensures { IsSeatOf claims.now seat.new }
{
    match claims.claim(seat, row) {
        Claimed::Won => {
            if row % 5 == 0 {
                claims.void(seat, row);
            } else {
                claims.publish(seat, row, &Made { row });
            }
            true
        }
        Claimed::Lost(_) => false,
    }
}

// Looks at each row, and counts the ended rows that are no longer what they were.
fn watch(claims: &Claims, seat: &mut Seat, last: &mut [RowState]) -> u64
    requires own { IsSeatOf claims.now seat.old }
    requires rows { length last.old ≡ rows_of claims.now }
    ensures { IsSeatOf claims.now seat.new }
{
    let mut changed = 0u64;
    for row in 0..claims.rows() {
        let state = claims.look(seat, row);
        let before = last[row as usize];
        if is_ended(before) && before != state {
            changed = changed.saturating_add(1);
        }
        last[row as usize] = state;
    }
    changed
}
