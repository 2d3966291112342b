//! The lists of a core: which rows a row needs, and which rows an actor has seen Published.
ghost use Rattle.std.specs.Prelude.{◌≡◌, ◌≢◌, ℕ, ◌<◌, Bool, false, true, not, ◌||◌, List, [], length, map, filter, replicate};
ghost use Rattle.std.specs.Prelude.{slice_index_or, slice_set, vec_len, vec_items, IfOk, Contains};
ghost use Rattle.cox_fill_core.specs.Fill.{least};
ghost use Rattle.cox_fill_core.specs.Parts.{AddsMarks, TellsMarks, lesser_of};

use crate::NoMemory;
use std::alloc::Global;
use std::marker::Model;

/// The rows that a row needs.
#[derive(Drop)]
pub struct Needs(Vec<u32>);

impl Model for Needs {
    ghost Value = { List ℕ };

    ghost view = { λ needs. needs.0.items };
}

impl Needs {
    fn of(row: &Vec<u32>) -> Result<Needs, NoMemory>
        ensures { IfOk result (λ needs. needs ≡ row.now.items) }
    {
        Ok(Needs(row.clone()?))
    }
}

/// For each row, whether an actor has seen it Published.
#[derive(Drop)]
pub struct Known(Vec<bool>);

impl Model for Known {
    ghost Value = { List Bool };

    ghost view = { λ known. known.0.items };
}

impl Known {
    /// Whether the actor has seen the row Published.
    pub fn has(&self, row: u32) -> bool
        requires { row < length self.now }
        ensures { result ≡ slice_index_or self.now row false }
    {
        self.0[row as usize]
    }

    // Notes that the actor has seen the row Published.
    fn add(&mut self, row: u32)
        requires { row < length self.old }
        ensures { self.new ≡ slice_set self.old row true }
    {
        self.0[row as usize] = true;
    }

    // Adds what another actor knows of as many rows.
    fn add_all(&mut self, other: &Known)
        requires { length self.old ≡ length other.now }
        ensures { AddsMarks self.old other.now self.new }
    {
        add_each(&mut self.0, &other.0);
    }
}

// Adds what is known in the other list.
fn add_each(known: &mut [bool], other: &[bool])
    requires { length known.old ≡ length other.now }
    ensures { AddsMarks known.old other.now known.new }
{
    for (k, &x) in other.iter().enumerate() {
        if x {
            known[k] = true;
        }
    }
}

/// The needs of each row, with memory of their own; `needs[i]` has those of row i. `NoMemory` comes where there is none for them.
pub fn copy_needs(alloc: Global, needs: &[Vec<u32>]) -> Result<Vec<Needs>, NoMemory>
    ensures { IfOk result (λ copy. copy.items ≡ map vec_items needs.now) }
{
    let mut copy = Vec::with_capacity(alloc, needs.len())?;
    for row in needs {
        copy.push(Needs::of(row)?)?;
    }
    Ok(copy)
}

/// For each of so many actors what it knows of so many rows: it has seen none. `NoMemory` comes where there is no memory for that.
pub fn unseen(alloc: Global, actors: u32, rows: usize) -> Result<Vec<Known>, NoMemory>
    ensures { IfOk result (λ seen. seen.items ≡ replicate actors (replicate rows false)) }
{
    let mut seen = Vec::new(alloc);
    for _ in 0..actors {
        seen.push(Known(vec![in alloc; false; rows]?))?;
    }
    Ok(seen)
}

/// The least row that is needed and that is not known; `None` where all of them are known.
pub fn least_missing(needs: &Needs, known: &Known) -> Option<u32>
    requires { (j : ℕ) → Contains needs.now j → j < length known.now }
    ensures { result ≡ least (filter (λ j. not (slice_index_or known.now j false)) needs.now) }
{
    least_of(&needs.0, &known.0)
}

fn least_of(needs: &[u32], known: &[bool]) -> Option<u32>
    requires { (j : ℕ) → Contains needs.now j → j < length known.now }
    ensures { result ≡ least (filter (λ j. not (slice_index_or known.now j false)) needs.now) }
{
    let mut least = None;
    for &row in needs {
        if !known[row as usize] {
            least = lesser(least, row);
        }
    }
    least
}

fn lesser(least: Option<u32>, row: u32) -> Option<u32>
    ensures { result ≡ lesser_of least row }
{
    match least {
        Some(other) => Some(other.min(row)),
        None => Some(row),
    }
}

/// Notes that the actor has seen the row.
pub fn mark(seen: &mut Vec<Known>, actor: u32, row: u32)
    requires { (actor < vec_len seen.old) × (row < length (slice_index_or seen.old.items actor [])) }
    ensures { seen.new.items ≡ slice_set seen.old.items actor (slice_set (slice_index_or seen.old.items actor []) row true) }
{
    seen[actor as usize].add(row);
}

/// Notes that the second actor has seen what the first had.
pub fn tell(seen: &mut Vec<Known>, from: u32, to: u32)
    requires within { (from < vec_len seen.old) × (to < vec_len seen.old) × (from ≢ to) }
    requires sized { length (slice_index_or seen.old.items to []) ≡ length (slice_index_or seen.old.items from []) }
    ensures { TellsMarks seen.old.items seen.new.items from to }
{
    tell_slice(seen, from as usize, to as usize);
}

fn tell_slice(seen: &mut [Known], from: usize, to: usize)
    requires within { (from < length seen.old) × (to < length seen.old) × (from ≢ to) }
    requires sized { length (slice_index_or seen.old to []) ≡ length (slice_index_or seen.old from []) }
    ensures { TellsMarks seen.old seen.new from to }
{
    if from < to {
        let (low, high) = seen.split_at_mut(to);
        high[0].add_all(&low[from]);
    } else {
        let (low, high) = seen.split_at_mut(from);
        low[to].add_all(&high[0]);
    }
}
