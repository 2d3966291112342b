//! A stress test of the table of claims: several threads claim, publish, void and look over one table at once.
//!
//! Each row has to be won once, and a row that a worker has seen Published or Void has to stay so, to the end. A thread
//! that sleeps on a row has to wake when the row is published, and when it is given up; if it does not, the program never
//! ends. It has to sleep meanwhile, and not to look again and again. What is printed is the same by every schedule.
//!
//! - work: what one worker does, and what it reports
//! - tally: what all reports say together
//! - sleeping: a thread that sleeps on a row that is published, or given up
#![tactic(auto)]

ghost use Rattle.std.specs.Prelude.{◌<◌, IfOk, All};
ghost use Rattle.cox_claims.specs.Tables.{IsSeatOf};
ghost use Rattle.claims_stress.specs.Jobs.{IsJobReady};

use cox_claims::{Claims, NoMemory, Seat};
use sleeping::{Ending, ROW, end_under_sleeper};
use std::alloc::{AllocError, Global};
use std::sync::Wait;
use std::thread;
use std::thread::Threads;
use std::time::Clock;
use tally::Tally;
use work::{Job, Report};

mod sleeping;
mod tally;
mod work;

const ROWS: u32 = 2000;

const WORKERS: u32 = 8;

/// How often a thread may sleep until it is woken once.
const MOST_SLEEPS: u32 = 100;

// A job for each worker.
fn jobs(alloc: Global, claims: &Claims, seat: &mut Seat) -> Result<Vec<Job>, NoMemory>
    requires { IsSeatOf claims.now seat.old }
    ensures own { IsSeatOf claims.now seat.new }
    ensures ready { IfOk result (λ jobs. All (IsJobReady claims.now) jobs.items) }
{
    let mut jobs = Vec::new(alloc);
    for worker in 0..WORKERS {
        let seat = claims.split(seat);
        jobs.push(Job { worker, seat })?;
    }
    Ok(jobs)
}

// Has each job done in a thread of its own.
fn reports<R: Threads + Sync>(
    rt: &R,
    alloc: Global,
    claims: &Claims,
    jobs: Vec<Job>,
) -> Result<Vec<Result<Report, NoMemory>>, NoMemory>
    requires { All (IsJobReady claims.now) jobs.items }
{
    thread::map_vec(rt, jobs, &|job| work::work(alloc, claims, job))
}

// Has a thread sleep on a row that is ended so.
fn try_sleep<R: Threads + Wait + Clock + Print + Sync>(
    rt: &R,
    alloc: Global,
    ending: Ending,
) -> anyhow::Result<()> {
    let (claims, seat) = Claims::new(alloc, ROW + 1)?;
    let woken = end_under_sleeper(rt, &claims, seat, ending);
    println!(rt;
        "a thread slept on row {ROW}, and woke when it was {:?}",
        woken.state
    )?;
    println!(rt; "it slept a few times: {}", woken.sleeps <= MOST_SLEEPS)?;
    println!(rt; "threads that still sleep: {}", claims.sleepers())?;
    Ok(())
}

fn main(rt: HostRuntime) -> anyhow::Result<()> {
    let alloc = rt.alloc();
    let (claims, mut seat) = Claims::new(alloc, ROWS)?;
    let jobs = jobs(alloc, &claims, &mut seat)?;
    let reports = reports(&rt, alloc, &claims, jobs)?;
    let Ok(states) = claims.close(seat) else {
        return Err(AllocError.into());
    };
    let mut tally = Tally::new(alloc, states)?;
    for report in reports {
        tally.add(&report?);
    }
    println!(rt; "{} rows, {} workers", ROWS, WORKERS)?;
    println!(rt; "{} rows were won once", tally.won_once())?;
    println!(rt; "{} published, {} void", tally.published(), tally.void())?;
    println!(rt; "{} ended rows changed", tally.changed())?;
    try_sleep(&rt, alloc, Ending::Void)?;
    try_sleep(&rt, alloc, Ending::Publish)
}
