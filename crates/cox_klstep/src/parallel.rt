//! Polynomials of a row that are found before the row is made, by several threads.
//!
//! A row with many corrections takes long, and other rows may wait for it. Each of its polynomials depends on rows that are there alone. So
//! threads share them, and then one thread makes the row of what they found. It finds by itself what they did not.
ghost use Rattle.std.specs.Prelude.{◌≡◌, ℕ, ◌<◌, ◌≤◌, length, IfSome};
ghost use Rattle.std.specs.Thread.{IsSync};
ghost use Rattle.cox_context.specs.Closed.{Elements};
ghost use Rattle.cox_klstep.specs.FoundTogether.{IsFoundFor, AreFound};
ghost use Rattle.cox_klstep.specs.LoweredTo.{IsLoweredBy};
ghost use Rattle.cox_klstep.specs.Plans.{IsPlan};
ghost use Rattle.cox_klstep.specs.SourceOf.{IsMadeFrom};
ghost use Rattle.cox_klstep.specs.Tasks.{IsTask};

use crate::plan::RowPlan;
use crate::sums::{Source, put_polynomial};
use crate::tables::Tables;
use crate::task::RowTask;
use cox_context::Context;
use cox_poly::{Acc, Poly};
use cox_row_builder::Steps;
use std::alloc::Global;
use std::thread::{Threads, join};

/// For how many extremal members threads find polynomials at most. It bounds the memory that they take.
const MAX_FOUND: usize = 131_072;

/// From how many look-ups of polynomials on threads share them. To start threads for fewer takes longer than they save.
const MIN_SHARED_LOOKUPS: u64 = 16_384;

/// P(x,w), for an extremal member x <= w of the member w whose row is made.
#[derive(Drop)]
pub struct FoundPolynomial {
    /// The number of x.
    pub(crate) member: u32,
    pub(crate) polynomial: Poly,
}

impl<'a> RowPlan<'a> {
    /// Polynomials of the row, by so many threads: rising by their members, unless memory runs out. Where there is little to find, or there
    /// is one thread, there are none.
    pub fn find_together<R: Threads + Sync>(
        &self,
        rt: &R,
        threads: u32,
        alloc: Global,
        ctx: &Context,
        tables: &Tables,
    ) -> Vec<FoundPolynomial>
        requires { IsPlan ctx.now tables.now self.now }
        ensures { AreFound ctx.now self.now.step.member result.items }
    {
        let source = Source {
            step: &self.step,
            lower: self.lower,
            index: &tables.index,
            needed: self.needed.as_slice(),
        };
        let task = RowTask {
            ctx,
            member: self.step.member,
            source: &source,
            lowered: &tables.lowered,
            limit: self.limit,
        };
        let end = task.lowered.len().min(MAX_FOUND);
        if threads < 2 || !is_dear(&task, end) {
            return Vec::new(alloc);
        }
        let mut found = find_from(rt, 0, threads, alloc, &task, end);
        // If there is no memory for the sort, the list stays as it is. `FoundCursor` then passes over polynomials that are out of order,
        // and they are added up anew.
        let _ = found.sort_by_key(|it: &FoundPolynomial| -> u32 { it.member });
        found
    }
}

/// What the thread with this number, from 0, and all threads with greater numbers find for the extremal members before the place `end`.
/// Each works in a thread of its own.
fn find_from<R: Threads + Sync>(
    rt: &R,
    thread: u32,
    threads: u32,
    alloc: Global,
    task: &RowTask,
    end: usize,
) -> Vec<FoundPolynomial>
    requires task { IsTask task.now }
    requires thread { thread < threads }
    requires end { end ≤ length task.now.lowered.now.members.items }
    ensures { AreFound task.now.ctx.now task.now.member result.items }
{
    let next = thread + 1;
    if next == threads {
        return find_by(thread, threads, alloc, task, end);
    }
    // What a closure says of its result is known only where it captures no struct that has a lifetime.
    let RowTask {
        ctx,
        member,
        source,
        lowered,
        limit,
    } = *task;
    let Source {
        step,
        lower,
        index,
        needed,
    } = *source;
    let (mut mine, mut theirs) = join(
        rt,
        move || -> Vec<FoundPolynomial>
            requires { (member < length ctx.now.members) × IsMadeFrom ctx.now member step.now lower.now index.now needed.now
                × IsLoweredBy ctx.now member step.now lowered.now × (thread < threads) × (end ≤ length lowered.now.members.items) }
            ensures { AreFound ctx.entry.now member result.items }
        {
            let source = Source {
                step,
                lower,
                index,
                needed,
            };
            let task = RowTask {
                ctx,
                member,
                source: &source,
                lowered,
                limit,
            };
            find_by(thread, threads, alloc, &task, end)
        },
        move || -> Vec<FoundPolynomial>
            requires { IsSync R.row × (member < length ctx.now.members)
                × IsMadeFrom ctx.now member step.now lower.now index.now needed.now × IsLoweredBy ctx.now member step.now lowered.now
                × (next < threads) × (end ≤ length lowered.now.members.items) }
            ensures { AreFound ctx.entry.now member result.items }
        {
            let source = Source {
                step,
                lower,
                index,
                needed,
            };
            let task = RowTask {
                ctx,
                member,
                source: &source,
                lowered,
                limit,
            };
            find_from(rt, next, threads, alloc, &task, end)
        },
    );
    match mine.append(&mut theirs) {
        Ok(()) => mine,
        Err(_) => Vec::new(alloc),
    }
}

/// What one of the threads finds, as far as there is memory and coefficients are within the limit. It has the place with its number, and
/// from there on each place behind as many others as there are threads. So all have members at which much is looked up, and others.
fn find_by(
    thread: u32,
    threads: u32,
    alloc: Global,
    task: &RowTask,
    end: usize,
) -> Vec<FoundPolynomial>
    requires task { IsTask task.now }
    requires thread { thread < threads }
    requires end { end ≤ length task.now.lowered.now.members.items }
    ensures { AreFound task.now.ctx.now task.now.member result.items }
{
    let mut found = Vec::new(alloc);
    let mut sums = Acc::new();
    let mut k = thread as usize;
    while k < end {
        find_one(alloc, task, k, &mut sums, &mut found);
        k += threads as usize;
    }
    found
}

/// The same for one extremal member, put behind what was found.
fn find_one(
    alloc: Global,
    task: &RowTask,
    k: usize,
    sums: &mut Acc,
    found: &mut Vec<FoundPolynomial>,
)
    requires task { IsTask task.now }
    requires place { k < length task.now.lowered.now.members.items }
    requires found { AreFound task.now.ctx.now task.now.member found.old.items }
    ensures { AreFound task.now.ctx.now task.now.member found.new.items }
{
    let _len = task.ctx.len();
    let next = task.lowered.at(k);
    let mut steps = Steps::new();
    put_polynomial(
        task.ctx,
        task.member,
        task.source,
        next.member,
        next.shorter,
        None,
        sums,
        &mut steps,
    );
    let Ok(polynomial) = sums.close(alloc, task.limit) else {
        return;
    };
    let _ = found.push(FoundPolynomial {
        member: next.member,
        polynomial,
    });
}

/// Whether so much is looked up for the extremal members before a place that threads are to share that.
fn is_dear(task: &RowTask, end: usize) -> bool
    requires { end ≤ length task.now.lowered.now.members.items }
{
    let corrections = task.source.step.corrections.as_slice();
    let mut passed = 0;
    let mut looked_up = 0u64;
    for &x in &task.lowered.members[..end] {
        while passed < corrections.len() && corrections[passed].number < x {
            passed += 1;
        }
        looked_up = looked_up.saturating_add(2 + (corrections.len() - passed) as u64);
        if looked_up >= MIN_SHARED_LOOKUPS {
            return true;
        }
    }
    false
}

/// Polynomials that threads found, as they are come to.
#[derive(Drop)]
pub(crate) struct FoundCursor {
    pub(crate) found: Vec<FoundPolynomial>,
    /// Those before this place are passed.
    place: usize,
}

impl FoundCursor {
    /// None of them is passed.
    pub(crate) fn new(found: Vec<FoundPolynomial>) -> FoundCursor
        ensures { result.found ≡ found }
    {
        FoundCursor { found, place: 0 }
    }

    /// Comes to the member with the number x. Those found for members before it are passed.
    pub(crate) fn come_to(&mut self, x: u32)
        ensures { self.new.found ≡ self.old.found }
    {
        while self.place < self.found.len() && self.found[self.place].member < x {
            self.place += 1;
        }
    }

    /// The polynomial for the member with the number x, if that is the one come to.
    pub(crate) fn polynomial(&self, x: u32) -> Option<&Poly>
        ensures { (e : Elements) (i : ℕ) → AreFound e i self.now.found.items → IfSome result (λ p. IsFoundFor e i x p.now) }
    {
        match self.found.get(self.place) {
            Some(found) if found.member == x => Some(&found.polynomial),
            _ => None,
        }
    }
}
