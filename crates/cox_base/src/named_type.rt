//! The named types.
ghost use Rattle.std.specs.Prelude.{◌≡◌, ◌+◌, ◌-◌, ◌<◌, ◌≤◌, ◌++◌, ◌↔◌, IfOk, OnOk, OnErr, ◌^◌, if◌then◌else◌, IsTrue, map, IsFalse};
ghost use Rattle.std.specs.List.{range_with_len};
ghost use Rattle.arrayvec.specs.ArrayVec.{array_vec_len};
ghost use Rattle.cox_base.specs.Matrix.{is_label};
ghost use Rattle.cox_base.specs.NamedType.{is_type, type_rank, type_label, type_matrix};

use crate::Coxeter;
use crate::limits::{MAX_LABELS, MAX_RANK};
use arrayvec::ArrayVec;
use thiserror::Error;

/// There is no type of that letter and number.
#[derive(Clone, Copy, Debug, Drop, Eq, Error, PartialEq)]
#[error("no such type")]
pub struct NotAType;

impl Coxeter {
    /// The matrix of a type: A 1 to 16, B 2 to 16, D 4 to 16, E 6 to 8, F 4, G 2, and the affine a 1 to 15, of rank n + 1; the letter is a
    /// character's code. The diagrams are those of Humphreys 2.4 and 2.5. The error comes exactly where there is no such type.
    ///
    /// For example `named(b'B', 3)` has m(1,2) = 3, m(1,3) = 2 and m(2,3) = 4, and `named(b'a', 2)` has 3 between each two of its three
    /// nodes.
    pub fn named(letter: u8, n: u32) -> Result<Coxeter, NotAType>
        ensures matrix { IfOk result (λ g. g ≡ type_matrix letter n) }
        ensures is_type { OnOk result (IsTrue (is_type letter n)) }
        ensures not_a_type { OnErr result (IsFalse (is_type letter n)) }
    {
        if !has_type(letter, n) {
            return Err(NotAType);
        }
        let rank = rank_of(letter, n);
        let mut labels = ArrayVec::new();
        for s in 1..rank {
            push_row(&mut labels, letter, n, s, rank);
        }
        Ok(Coxeter::from_labels(rank, labels))
    }
}

/// Puts the labels of the row of `s`: those of s and t for t from s + 1 to the rank.
fn push_row(labels: &mut ArrayVec<u8, MAX_LABELS>, letter: u8, n: u32, s: u32, rank: u32)
    requires rising { s < rank }
    requires limit { rank ≤ MAX_RANK }
    requires n { n ≤ MAX_RANK }
    requires room { array_vec_len labels.old + (rank - s) ≤ MAX_LABELS }
    ensures { labels.new.items ≡ labels.old.items ++ map (λ t. type_label letter n s t) (range_with_len (s + 1) (rank - s)) }
{
    for t in s + 1..rank + 1 {
        labels.push(label_of(letter, n, s, t));
    }
}

/// Whether there is such a type.
fn has_type(letter: u8, n: u32) -> bool
    ensures { result ≡ is_type letter n }
{
    match letter {
        b'A' => 1 <= n && n <= MAX_RANK as u32,
        b'B' => 2 <= n && n <= MAX_RANK as u32,
        b'D' => 4 <= n && n <= MAX_RANK as u32,
        b'E' => 6 <= n && n <= 8,
        b'F' => n == 4,
        b'G' => n == 2,
        b'a' => 1 <= n && n < MAX_RANK as u32,
        _ => false,
    }
}

/// The number of its nodes.
fn rank_of(letter: u8, n: u32) -> u32
    requires { IsTrue (is_type letter n) }
    ensures rank { result ≡ type_rank letter n }
    ensures some { 1 ≤ result }
    ensures limit { result ≤ MAX_RANK }
{
    if letter == b'a' { n + 1 } else { n }
}

/// The label between its nodes s < t.
fn label_of(letter: u8, n: u32, s: u32, t: u32) -> u8
    requires s { s < 2 ^ 31 }
    requires n { n < 2 ^ 31 }
    ensures label { result ≡ type_label letter n s t }
    ensures admitted { IsTrue (is_label result) }
{
    let on_chain = t == s + 1;
    match letter {
        b'B' if s + 1 == n && t == n => 4,
        b'D' if t == n => three_if(s + 2 == n),
        b'E' if (s, t) == (1, 3) || (s, t) == (2, 4) => 3,
        b'E' if s <= 2 => 2,
        b'F' if (s, t) == (2, 3) => 4,
        b'G' => 6,
        b'A' | b'B' | b'D' | b'E' | b'F' => three_if(on_chain),
        _ if n == 1 => 0,
        _ if s == 1 && t == n + 1 => 3,
        _ => three_if(on_chain),
    }
}

/// 3 for nodes that are joined, else 2.
fn three_if(joined: bool) -> u8
    ensures { result ≡ (if joined then 3 else 2) }
{
    if joined { 3 } else { 2 }
}
