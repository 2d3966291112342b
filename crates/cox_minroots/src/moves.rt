//! Where each letter takes each small root.
ghost use Rattle.std.specs.Prelude.{◌≡◌, ℕ, ◌+◌, ◌-◌, ◌*◌, ◌<◌, ◌≤◌, length, IfOk, slice_index};
ghost use Rattle.cox_base.specs.Matrix.{IsLetter};
ghost use Rattle.cox_base.specs.IntegerMatrix.{integer_matrix};
ghost use Rattle.cox_minroots.specs.Closure.{AreAllSmall};
ghost use Rattle.cox_minroots.specs.Moves.{IsMove};
ghost use Rattle.cox_minroots.specs.RootLists.{root_of, coroot_of};

use crate::closure::{LONGEST, MAX_SMALL_ROOTS};
use crate::roots::Roots;
use cox_base::{Coxeter, MAX_RANK};
use std::alloc::{AllocError, Global};

/// The letter makes the root negative: it is the simple root of the letter.
pub(crate) const NEGATIVE: u16 = 65534;

/// The image is positive and not small.
pub(crate) const OUT: u16 = 65535;

/// The moves of all roots, MAX_RANK for each; those of letters past the rank mean nothing.
pub(crate) fn moves(alloc: Global, g: &Coxeter, roots: &Roots) -> Result<Vec<u16>, AllocError>
    requires closed { AreAllSmall (integer_matrix g.now) roots.now }
    requires few { length roots.now ≤ MAX_SMALL_ROOTS }
    ensures size { IfOk result (λ moves. length moves.items ≡ MAX_RANK * length roots.now) }
    ensures moves { IfOk result (λ moves. (i s : ℕ) → i < length roots.now → IsLetter g.now.rank s
        → IsMove (integer_matrix g.now) (length roots.now) (root_of roots.now) (coroot_of roots.now) i s
        (slice_index moves.items (MAX_RANK * i + (s - 1)))) }
{
    prove!(g.rank() as usize <= MAX_RANK);
    let mut moves = Vec::new(alloc);
    for place in 0..MAX_RANK * roots.len() {
        let s = (place % MAX_RANK + 1) as u8;
        moves.push(move_of(g, roots, place / MAX_RANK, s))?;
    }
    Ok(moves)
}

/// Where s takes the root `i`; OUT past the rank.
fn move_of(g: &Coxeter, roots: &Roots, i: usize, s: u8) -> u16
    requires closed { AreAllSmall (integer_matrix g.now) roots.now }
    requires few { length roots.now ≤ MAX_SMALL_ROOTS }
    requires within { i < length roots.now }
    requires letter { 1 ≤ s }
    ensures { s ≤ g.now.rank → IsMove (integer_matrix g.now) (length roots.now) (root_of roots.now) (coroot_of roots.now) i s result }
{
    if u32::from(s) > g.rank() {
        return OUT;
    }
    if i == s as usize - 1 {
        return NEGATIVE;
    }
    let root = roots.at(i);
    if root.product(g, s) > LONGEST {
        return OUT;
    }
    match roots.number(&root.turned(g, s)) {
        Some(number) => number as u16,
        None => unreachable!(),
    }
}
