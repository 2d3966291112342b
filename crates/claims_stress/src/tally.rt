//! What all reports say together.
use crate::work::{Report, is_ended};
use cox_claims::{NoMemory, RowState};
use std::alloc::Global;

/// How often each row was won, its state at the end, and how many ended rows were seen to change.
#[derive(Drop)]
pub struct Tally {
    wins: Vec<u32>,
    states: Vec<RowState>,
    changed: u64,
}

impl Tally {
    /// No report yet, over these states at the end.
    pub fn new(alloc: Global, states: Vec<RowState>) -> Result<Tally, NoMemory> {
        Ok(Tally {
            wins: vec![in alloc; 0; states.len()]?,
            states,
            changed: 0,
        })
    }

    /// Adds a worker's report.
    pub fn add(&mut self, report: &Report) {
        for &row in &report.won {
            if let Some(wins) = self.wins.get_mut(row as usize) {
                *wins = wins.saturating_add(1);
            }
        }
        self.changed = self.changed.saturating_add(report.changed);
        for (before, now) in report.last.iter().zip(&self.states) {
            if is_ended(*before) && before != now {
                self.changed = self.changed.saturating_add(1);
            }
        }
    }

    /// How many rows were won by one worker, once.
    pub fn won_once(&self) -> usize {
        self.wins.iter().filter(|wins| **wins == 1).count()
    }

    /// How many rows are Published at the end.
    pub fn published(&self) -> usize {
        self.count(RowState::Published)
    }

    /// How many rows are Void at the end.
    pub fn void(&self) -> usize {
        self.count(RowState::Void)
    }

    fn count(&self, state: RowState) -> usize {
        self.states.iter().filter(|s| **s == state).count()
    }

    /// How many ended rows were seen in another state later.
    pub fn changed(&self) -> u64 {
        self.changed
    }
}
