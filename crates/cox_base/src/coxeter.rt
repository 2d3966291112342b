//! Coxeter matrices, and the integer matrix by which the group acts.
ghost use Rattle.std.specs.Prelude.{◌≡◌, ◌+◌, ◌-◌, ◌*◌, ◌/◌, ◌<◌, ◌≤◌, nat_abs, None, if◌then◌else◌, IfOk, IfErr, OnOk, length, All};
ghost use Rattle.std.specs.Prelude.{IsTrue, Some, not};
ghost use Rattle.cox_base.specs.Matrix.{CoxeterMatrix, IsLetter, is_label, place, label};
ghost use Rattle.cox_base.specs.Admissible.{IsCoxeterMatrix};
ghost use Rattle.cox_base.specs.IntegerMatrix.{entry_of, entry_above, entry_below};
ghost use Rattle.cox_base.specs.Table.{IsTable, IsFirstBad};

use crate::copy::copy_of;
use crate::limits::{MAX_LABELS, MAX_RANK};
use arrayvec::ArrayVec;
use std::marker::Model;
use thiserror::Error;

/// How many entries a matrix of the greatest rank has.
const ENTRIES: usize = MAX_RANK * MAX_RANK;

/// A label that is not admitted.
#[derive(Clone, Copy, Debug, Drop, Eq, Error, PartialEq)]
#[error("label {place} is {value}, and not 0, 2, 3, 4 or 6")]
pub struct Label {
    /// Its place in the list of labels, from 1.
    pub place: u32,
    /// The label itself.
    pub value: u32,
}

/// A Coxeter matrix of rank 1 to `MAX_RANK` with labels 2, 3, 4, 6 and infinity (written 0), and its integer matrix.
///
/// Contracts see it as the rank and the list of labels above the diagonal, row by row (Humphreys, "Reflection Groups and Coxeter Groups",
/// 5.1). `rank` tells that each is a Coxeter matrix.
#[derive(Drop)]
pub struct Coxeter {
    rank: u32,
    labels: ArrayVec<u8, MAX_LABELS>,
    // a(s,t) at MAX_RANK (s - 1) + t - 1
    entries: [i8; ENTRIES],
}

impl Model for Coxeter {
    ghost use Rattle.cox_base.specs.Matrix.{CoxeterMatrix};
    ghost use Rattle.cox_base.specs.Table.{IsTable};

    ghost Value = { CoxeterMatrix };

    ghost view = { λ g. record { rank = g.rank; labels = g.labels.items } };

    ghost invariant = { λ g. IsTable (record { rank = g.rank; labels = g.labels.items }) g.entries };
}

impl Coxeter {
    /// The matrix of rank `n` with these labels above its diagonal, row by row: m(1,2), m(1,3), .., m(1,n), m(2,3), .., m(n-1,n); 0 is
    /// infinity.
    ///
    /// For example `of_labels(3, &[3, 2, 4])` is B 3. The error comes exactly where a label is not 0, 2, 3, 4 or 6, and tells the first
    /// such label: for `of_labels(3, &[3, 5, 1])` the place 2 and the value 5.
    pub fn of_labels(n: usize, labels: &[u32]) -> Result<Coxeter, Label>
        requires some { 1 ≤ n }
        requires limit { n ≤ MAX_RANK }
        requires count { length labels.now ≡ n * (n - 1) / 2 }
        ensures matrix { IfOk result (λ g. g ≡ record { rank = n; labels = labels.now }) }
        ensures admitted { OnOk result (All (λ m. IsTrue (is_label m)) labels.now) }
        ensures fault { IfErr result (λ fault. IsFirstBad labels.now fault.place fault.value) }
    {
        let mut own = ArrayVec::new();
        for (place, &label) in labels.iter().enumerate() {
            let Some(small) = admitted(label) else {
                return Err(Label {
                    place: place as u32 + 1,
                    value: label,
                });
            };
            own.push(small);
        }
        Ok(Coxeter::from_labels(n as u32, own))
    }

    /// The matrix with these labels.
    pub(crate) fn from_labels(rank: u32, labels: ArrayVec<u8, MAX_LABELS>) -> Coxeter
        requires matrix { IsCoxeterMatrix (record { rank = rank; labels = labels.items }) }
        requires limit { rank ≤ MAX_RANK }
        ensures { result ≡ record { rank = rank; labels = labels.items } }
    {
        let mut entries = [0; ENTRIES];
        for k in 0..ENTRIES {
            let (s, t) = (k / MAX_RANK + 1, k % MAX_RANK + 1);
            entries[k] = entry_at(rank, labels.as_slice(), s as u32, t as u32);
        }
        Coxeter {
            rank,
            labels,
            entries,
        }
    }

    /// The rank: the number of letters.
    pub fn rank(&self) -> u32
        ensures rank { result ≡ self.now.rank }
        ensures limit { result ≤ MAX_RANK }
        ensures matrix { IsCoxeterMatrix self.now }
    {
        self.rank
    }

    /// m(s,t): 1 for s = t, else the label of s and t; 0 is infinity. In B 3 `label(2, 3)` and `label(3, 2)` are 4.
    pub fn label(&self, s: u8, t: u8) -> u32
        requires s { IsLetter self.now.rank s }
        requires t { IsLetter self.now.rank t }
        ensures { result ≡ label self.now s t }
    {
        if s == t {
            return 1;
        }
        let (s, t) = (s.min(t) as u32, s.max(t) as u32);
        self.labels.as_slice()[place_of_label(self.rank, s, t)] as u32
    }

    /// a(s,t), so that the generator s sends the simple root e(t) to e(t) - a(s,t) e(s) (compare Humphreys 5.3).
    ///
    /// It is 2 for s = t. In B 3 `entry(2, 3)` is -1 and `entry(3, 2)` is -2.
    pub fn entry(&self, s: u8, t: u8) -> i64
        requires s { IsLetter self.now.rank s }
        requires t { IsLetter self.now.rank t }
        ensures value { result ≡ entry_of self.now s t }
        ensures small { nat_abs result ≤ 3 }
    {
        self.entries[MAX_RANK * (s as usize - 1) + (t as usize - 1)] as i64
    }

    /// The same matrix once more.
    pub fn copy(&self) -> Coxeter
        ensures { result ≡ self.now }
    {
        Coxeter {
            rank: self.rank,
            labels: copy_of(&self.labels),
            entries: self.entries,
        }
    }
}

/// The label as it is kept, if it is admitted.
fn admitted(label: u32) -> Option<u8>
    ensures { result ≡ (if is_label label then Some label else None) }
{
    match label {
        0 => Some(0),
        2 => Some(2),
        3 => Some(3),
        4 => Some(4),
        6 => Some(6),
        _ => None,
    }
}

/// Where the label of s and t stands, from 0.
fn place_of_label(rank: u32, s: u32, t: u32) -> usize
    requires from_one { 1 ≤ s }
    requires rising { s < t }
    requires to_rank { t ≤ rank }
    requires limit { rank ≤ MAX_RANK }
    ensures place { result ≡ place rank s t }
    ensures within { result < rank * (rank - 1) / 2 }
{
    let mut before = 0;
    for row in 1..s {
        before += rank - row;
    }
    (before + t - s - 1) as usize
}

/// a(s,t) of the matrix with these labels.
fn entry_at(rank: u32, labels: &[u8], s: u32, t: u32) -> i8
    requires matrix { IsCoxeterMatrix (record { rank = rank; labels = labels.now }) }
    requires limit { rank ≤ MAX_RANK }
    requires s { 1 ≤ s }
    requires t { 1 ≤ t }
    ensures { result ≡ entry_of (record { rank = rank; labels = labels.now }) s t }
{
    if s > rank || t > rank {
        0
    } else if s == t {
        2
    } else if s < t {
        entry_above(labels[place_of_label(rank, s, t)])
    } else {
        entry_below(labels[place_of_label(rank, t, s)])
    }
}

/// a(s,t) for s < t, by the label.
fn entry_above(label: u8) -> i8
    ensures { result ≡ entry_above label }
{
    match label {
        2 => 0,
        0 => -2,
        _ => -1,
    }
}

/// a(t,s) for s < t, by the label.
fn entry_below(label: u8) -> i8
    ensures { result ≡ entry_below label }
{
    match label {
        2 => 0,
        3 => -1,
        6 => -3,
        _ => -2,
    }
}
