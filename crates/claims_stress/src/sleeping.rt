//! A thread that sleeps on a row while another holds it, and wakes when that one publishes the row, or gives it up.
ghost use Rattle.std.specs.Prelude.{◌<◌};
ghost use Rattle.std.specs.Thread.{IsSync};
ghost use Rattle.cox_claims.specs.Seats.{Holds, HoldsNothing};
ghost use Rattle.cox_claims.specs.Tables.{rows_of, IsSeatOf};

use crate::work::Made;
use cox_claims::{Claimed, Claims, RowState, Seat};
use std::sync::Wait;
use std::sync::atomic::AtomicBool;
use std::sync::atomic::Ordering::SeqCst;
use std::thread;
use std::thread::{Threads, join};
use std::time::{Clock, Duration};

/// The row that a thread sleeps on: one with a large number.
pub const ROW: u32 = 999;

/// How often the holder looks whether the other thread is about to sleep.
const TURNS: u32 = 1_000_000;

/// How long the holder then lets it fall asleep, in milliseconds.
const PAUSE: u64 = 50;

/// How the holder ends the row.
#[derive(Clone, Copy)]
pub enum Ending {
    Publish,
    Void,
}

/// The state that the other thread sees when it wakes, and how often it slept.
#[derive(Drop)]
pub struct Woken {
    pub state: RowState,
    pub sleeps: u32,
}

/// Claims the row, and ends it while another thread sleeps on it. What this one sees.
pub fn end_under_sleeper<R: Threads + Wait + Clock + Sync>(
    rt: &R,
    claims: &Claims,
    mut seat: Seat,
    ending: Ending,
) -> Woken
    requires own { IsSeatOf claims.now seat }
    requires row { ROW < rows_of claims.now }
{
    let sleeper = claims.split(&mut seat);
    let Claimed::Won = claims.claim(&mut seat, ROW) else {
        return Woken {
            state: RowState::Free,
            sleeps: 0,
        };
    };
    let flag = AtomicBool::new(false);
    let near = &flag;
    let (woken, ()) = join(
        rt,
        move || -> Woken
            requires { IsSync R.row × IsSeatOf claims.now sleeper × HoldsNothing sleeper × (ROW < rows_of claims.now) }
        { sleep_until_ended(rt, claims, sleeper, near) },
        move || -> ()
            requires { IsSync R.row × IsSeatOf claims.now seat × Holds seat ROW × (ROW < rows_of claims.now) }
        { end_later(rt, claims, seat, ending, near) },
    );
    woken
}

// Sleeps on the row until it has ended, and says first that it is about to.
fn sleep_until_ended<R: Wait>(rt: &R, claims: &Claims, mut seat: Seat, near: &AtomicBool) -> Woken
    requires own { IsSeatOf claims.now seat }
    requires idle { HoldsNothing seat }
    requires row { ROW < rows_of claims.now }
{
    let mut sleeps = 0u32;
    for _ in rt.forever() {
        match claims.look(&mut seat, ROW) {
            RowState::Claimed => {
                near.store(true, SeqCst);
                claims.sleep_on(rt, &seat, ROW);
                sleeps = sleeps.saturating_add(1);
            }
            state => return Woken { state, sleeps },
        }
    }
    unreachable!()
}

// Ends the row when the other thread is about to sleep on it, after a pause. It does not wait for ever: where no thread could be made,
// the other one comes last.
fn end_later(clock: &impl Clock, claims: &Claims, mut seat: Seat, ending: Ending, near: &AtomicBool)
    requires own { IsSeatOf claims.now seat }
    requires held { Holds seat ROW }
    requires row { ROW < rows_of claims.now }
{
    for _ in 0..TURNS {
        if near.load(SeqCst) {
            break;
        }
        thread::yield_now();
    }
    thread::sleep(clock, Duration::from_millis(PAUSE));
    match ending {
        Ending::Publish => claims.publish(&mut seat, ROW, &Made { row: ROW }),
        Ending::Void => claims.void(&mut seat, ROW),
    }
}
