//! A gate that counts the threads that work at once, for tests.
use cox_outside::{Gate, Point};
use std::alloc::{AllocError, Global};
use std::sync::Wait;
use std::sync::atomic::AtomicU64;
use std::sync::atomic::Ordering::SeqCst;
use std::thread;

/// How often a thread is held, at most, while others do not come.
const TURNS: u32 = 100_000_000;

/// The most workers that are counted.
const WORKERS: usize = 16;

/// A gate that sees how many threads work at once, where so many are awaited.
///
/// It holds each worker at its first claim until as many workers have come to a claim, and each block before it begins until as many blocks
/// have come there. Where more than one is awaited, it holds each worker at its second publication until another has come to a publication.
/// It counts how often somebody comes to claim each row, how often each is published, and the holds that ended before the others came.
#[derive(Drop)]
pub struct Census {
    awaited: u64,
    claims: Vec<AtomicU64>,
    publications: Vec<AtomicU64>,
    claimers: AtomicU64,
    publishers: AtomicU64,
    blocks: AtomicU64,
    claimed: Vec<AtomicU64>,
    published: Vec<AtomicU64>,
    late: AtomicU64,
}

/// So many counts, each 0.
fn counts(alloc: Global, number: usize) -> Result<Vec<AtomicU64>, AllocError> {
    let mut counts = Vec::with_capacity(alloc, number)?;
    for _ in 0..number {
        counts.push(AtomicU64::new(0))?;
    }
    Ok(counts)
}

/// Counts one more at a place, and says how many were counted there before, if there is such a place.
fn count_at(counts: &[AtomicU64], place: usize) -> Option<u64> {
    match counts.get(place) {
        Some(count) => Some(count.fetch_add(1, SeqCst)),
        None => None,
    }
}

impl Census {
    /// A gate where so many threads are awaited, for so many rows.
    pub fn new(alloc: Global, awaited: u64, rows: usize) -> Result<Census, AllocError> {
        Ok(Census {
            awaited,
            claims: counts(alloc, WORKERS)?,
            publications: counts(alloc, WORKERS)?,
            claimers: AtomicU64::new(0),
            publishers: AtomicU64::new(0),
            blocks: AtomicU64::new(0),
            claimed: counts(alloc, rows)?,
            published: counts(alloc, rows)?,
            late: AtomicU64::new(0),
        })
    }

    /// Holds the thread until so many were counted.
    fn hold(&self, count: &AtomicU64, awaited: u64) {
        for _ in 0..TURNS {
            if count.load(SeqCst) >= awaited {
                return;
            }
            thread::yield_now();
        }
        self.late.fetch_add(1, SeqCst);
    }

    /// Counts one, and holds the thread until as many as are awaited were counted.
    fn meet(&self, count: &AtomicU64) {
        count.fetch_add(1, SeqCst);
        self.hold(count, self.awaited);
    }

    /// How many rows were published once, and how many more often.
    pub fn published(&self) -> (usize, usize) {
        let counts = self.published.iter();
        let once = counts.filter(|passes| passes.load(SeqCst) == 1).count();
        let counts = self.published.iter();
        let again = counts.filter(|passes| passes.load(SeqCst) > 1).count();
        (once, again)
    }

    /// How many rows somebody came to claim.
    pub fn claimed(&self) -> usize {
        let counts = self.claimed.iter();
        counts.filter(|passes| passes.load(SeqCst) > 0).count()
    }

    /// How many workers have claimed rows, how many blocks were begun, and how many holds ended before the others came.
    pub fn seen(&self) -> (u64, u64, u64) {
        (
            self.claimers.load(SeqCst),
            self.blocks.load(SeqCst),
            self.late.load(SeqCst),
        )
    }
}

impl Gate for Census {
    fn pass<R: Wait>(&self, rt: &R, worker: u32, point: Point, row: u32) {
        let _ = rt;
        let worker = worker.saturating_sub(1) as usize;
        match point {
            Point::Claim => {
                let _ = count_at(&self.claimed, row as usize);
                if count_at(&self.claims, worker) == Some(0) {
                    self.meet(&self.claimers);
                }
            }
            Point::Publish => {
                let _ = count_at(&self.published, row as usize);
                match count_at(&self.publications, worker) {
                    Some(0) => {
                        self.publishers.fetch_add(1, SeqCst);
                    }
                    Some(1) => self.hold(&self.publishers, self.awaited.min(2)),
                    _ => {}
                }
            }
            Point::Block => self.meet(&self.blocks),
        }
    }
}
