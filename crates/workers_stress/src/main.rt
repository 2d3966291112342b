//! A test of workers on the rows of A 4: whatever their number, the rows are the same, all of them and those of the last member; a worker
//! passes the gate before it claims a row; and where a gate has two workers meet, both publish rows.
//!
//! What is printed is the same by every schedule.
#![tactic(auto)]

ghost use Rattle.std.specs.Prelude.{◌≡◌, ◌≤◌};

use cox_base::Coxeter;
use cox_context::Context;
use cox_doubles::Census;
use cox_minroots::{MAX_SMALL_ROOTS, RootTable};
use cox_outside::{Gate, Open};
use cox_row::Row;
use cox_row_store::RowStore;
use cox_workers::{all_members, fill, fill_row};
use std::alloc::{AllocError, Global};
use std::sync::Wait;
use std::thread::Threads;

/// The greatest coefficient.
const LIMIT: i64 = 2_147_483_647;

/// How many rows there are, how many polynomials and values of mu they have together.
#[derive(Clone, Copy, Debug, PartialEq, Eq)]
struct Counts {
    rows: usize,
    polynomials: usize,
    mus: usize,
}

/// Makes all rows of a context by so many workers.
fn all_rows<R: Threads + Wait + Sync, G: Gate + Sync>(
    rt: &R,
    alloc: Global,
    context: &Context,
    workers: u32,
    gate: &G,
) -> Result<Vec<Option<Row>>, AllocError>
    requires { 1 ≤ workers }
{
    let all = all_members(alloc, context)?;
    let (store, seat) = RowStore::new(alloc, context, LIMIT)?;
    let seat = fill(
        rt,
        alloc,
        context,
        &store,
        seat,
        all.as_slice(),
        workers,
        gate,
    );
    Ok(store.into_rows(rt, seat))
}

/// Makes the row of the last member by so many workers.
fn last_row<R: Threads + Wait + Sync, G: Gate + Sync>(
    rt: &R,
    alloc: Global,
    context: &Context,
    workers: u32,
    gate: &G,
) -> Result<Vec<Option<Row>>, AllocError>
    requires { 1 ≤ workers }
{
    let count = context.len();
    if count == 0 {
        return Ok(Vec::new(alloc));
    }
    let (store, seat) = RowStore::new(alloc, context, LIMIT)?;
    let seat = fill_row(rt, alloc, context, &store, seat, count - 1, workers, gate);
    Ok(store.into_rows(rt, seat))
}

/// What the rows come to.
fn count_all(rows: &[Option<Row>]) -> Counts {
    let mut sum = Counts {
        rows: 0,
        polynomials: 0,
        mus: 0,
    };
    for row in rows {
        if let Some(row) = row {
            sum.rows = sum.rows.saturating_add(1);
            sum.polynomials = sum.polynomials.saturating_add(row.pool().len());
            sum.mus = sum.mus.saturating_add(row.mu().len());
        }
    }
    sum
}

/// Prints what all rows come to, and those of the last member, by each number of workers.
fn print_counts<R: Print + Threads + Wait + Sync>(
    rt: &R,
    alloc: Global,
    context: &Context,
) -> anyhow::Result<()> {
    for workers in [1, 2, 4, 16] {
        let sum = count_all(all_rows(rt, alloc, context, workers, &Open)?.as_slice());
        print_sum(rt, "", sum)?;
    }
    for workers in [1, 2, 4, 16] {
        let sum = count_all(last_row(rt, alloc, context, workers, &Open)?.as_slice());
        print_sum(rt, "of the last one ", sum)?;
    }
    Ok(())
}

/// Prints what rows come to.
fn print_sum(rt: &impl Print, of: &str, sum: Counts) -> anyhow::Result<()> {
    println!(rt;
        "{of}{} rows, {} polynomials, {} values of mu",
        sum.rows, sum.polynomials, sum.mus
    )?;
    Ok(())
}

/// Prints what a gate counts that two workers pass, where so many are awaited.
fn print_passes<R: Print + Threads + Wait + Sync>(
    rt: &R,
    alloc: Global,
    context: &Context,
    awaited: u64,
) -> anyhow::Result<()> {
    let gate = Census::new(alloc, awaited, context.len() as usize)?;
    let rows = count_all(all_rows(rt, alloc, context, 2, &gate)?.as_slice()).rows;
    print_gate(rt, rows, &gate)
}

/// Prints how many rows there are, and what a gate has counted.
fn print_gate(rt: &impl Print, rows: usize, gate: &Census) -> anyhow::Result<()> {
    let ((once, _), (_, _, late)) = (gate.published(), gate.seen());
    println!(rt; "{rows} rows, {} came to be claimed", gate.claimed())?;
    println!(rt; "{once} published once, {late} late")?;
    Ok(())
}

/// All elements of A 4.
fn elements(alloc: Global) -> anyhow::Result<Context> {
    let table = RootTable::build(alloc, &Coxeter::named(b'A', 4)?, MAX_SMALL_ROOTS)?;
    Ok(Context::of_group(alloc, &table, 120)?)
}

fn main(rt: HostRuntime) -> anyhow::Result<()> {
    let context = elements(rt.alloc())?;
    print_counts(&rt, rt.alloc(), &context)?;
    print_passes(&rt, rt.alloc(), &context, 1)?;
    print_passes(&rt, rt.alloc(), &context, 2)
}
