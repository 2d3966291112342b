//! Bruhat order.
ghost use Rattle.std.specs.Prelude.{◌≤◌, ◌↔◌, length, IsTrue};
ghost use Rattle.cox_base.specs.Matrix.{IsWord};
ghost use Rattle.cox_base.specs.IntegerMatrix.{integer_matrix};
ghost use Rattle.cox_base.specs.Bruhat.{IsBelow};

use crate::forms::{heights_at, normal_form};
use crate::height_row::is_below;
use crate::wide_heights::LETTERS_OF_128_BITS;
use cox_base::{Coxeter, Side, Word};

/// Whether y <= w in Bruhat order, for words of at most 63 letters.
pub fn below(g: &Coxeter, y: &Word, w: &Word) -> bool
    requires letters_y { IsWord g.now.rank y.now.items }
    requires letters_w { IsWord g.now.rank w.now.items }
    requires short_y { length y.now.items ≤ LETTERS_OF_128_BITS }
    requires short_w { length w.now.items ≤ LETTERS_OF_128_BITS }
    ensures { IsTrue result ↔ IsBelow (integer_matrix g.now) y.now.items w.now.items }
{
    let _rank = g.rank();
    let form = normal_form(g, w);
    match is_below(g, heights_at(g, y, Side::Left), form.as_slice()) {
        Some(answer) => answer,
        None => unreachable!(),
    }
}
