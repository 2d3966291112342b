//! Coordinates of roots.
ghost use Rattle.std.specs.Prelude.{◌≡◌, ℕ, ◌-◌, ◌*◌, ◌^◌, ◌≤◌, length, slice_index_or, pos, ◌*ℤ◌, nat_abs};
ghost use Rattle.cox_base.specs.Matrix.{IsLetter, IsWord};
ghost use Rattle.cox_base.specs.IntegerMatrix.{integer_matrix, entry_of};
ghost use Rattle.cox_base.specs.Element.{sum_to, matrix};
ghost use Rattle.cox_reflect.specs.WordAction.{size};
ghost use Rattle.cox_reflect.specs.RootHeight.{at_letter};

use crate::wide_heights::LETTERS_OF_128_BITS;
use cox_base::{Coxeter, MAX_RANK, Word};

/// The coordinates of M(w) e(s), that of e(i) at i - 1; 0 past the rank.
///
/// For example in A 2 the image of e(1) under `21` is -e(1) - e(2): the numbers -1, -1, 0, 0, ..
pub fn image(g: &Coxeter, w: &Word, s: u8) -> [i128; MAX_RANK]
    requires letters { IsWord g.now.rank w.now.items }
    requires short { length w.now.items ≤ LETTERS_OF_128_BITS }
    requires letter { IsLetter g.now.rank s }
    ensures coordinates { (i : ℕ) → IsLetter g.now.rank i
        → slice_index_or result (i - 1) (pos 0) ≡ matrix (integer_matrix g.now) w.now.items i s }
    ensures past_rank { (k : ℕ) → g.now.rank ≤ k → slice_index_or result k (pos 0) ≡ pos 0 }
{
    let rank = g.rank();
    prove!(u32::from(s) <= rank);
    let mut root = [0; MAX_RANK];
    root[s as usize - 1] = 1;
    for &letter in w.as_slice().iter().rev() {
        root[letter as usize - 1] -= pairing(g, &root, letter);
    }
    root
}

/// a(s,1) v(1) + .. + a(s,n) v(n).
fn pairing(g: &Coxeter, v: &[i128; MAX_RANK], s: u8) -> i128
    requires letter { IsLetter g.now.rank s }
    requires room { size g.now.rank (at_letter v.now) ≤ 4 ^ (LETTERS_OF_128_BITS - 1) }
    ensures value { result ≡ sum_to g.now.rank (λ t. entry_of g.now s t *ℤ at_letter v.now t) }
    ensures bound { nat_abs result ≤ 3 * size g.now.rank (at_letter v.now) }
{
    let mut sum = 0;
    for t in 1..g.rank() as u8 + 1 {
        sum += i128::from(g.entry(s, t)) * v[t as usize - 1];
    }
    sum
}
