//! Descents, lengths and normal forms of words of at most 63 letters.
ghost use Rattle.std.specs.Prelude.{◌≡◌, ◌≤◌, length};
ghost use Rattle.cox_base.specs.Matrix.{IsWord};
ghost use Rattle.cox_base.specs.IntegerMatrix.{integer_matrix};
ghost use Rattle.cox_base.specs.ShortLex.{normal_form};
ghost use Rattle.cox_base.specs.Length.{word_length};
ghost use Rattle.cox_reflect.specs.Height.{AreHeights};
ghost use Rattle.cox_base.specs.SideDescents.{descent_set};
ghost use Rattle.cox_reflect.specs.Side.{word_on_side};

use crate::height_row::{descents_of, normal_form_of, of_reversed, of_word};
use crate::wide_heights::{LETTERS_OF_128_BITS, WideHeights};
use cox_base::{Coxeter, MAX_RANK, Side, Word};

/// The letters s with l(sw) < l(w), or on the right with l(ws) < l(w), rising.
///
/// For example in A 3 the word `12` has the left descents 1 and the right descents 2.
pub fn descents(g: &Coxeter, w: &Word, side: Side) -> Word
    requires letters { IsWord g.now.rank w.now.items }
    requires short { length w.now.items ≤ LETTERS_OF_128_BITS }
    ensures descents { result.items ≡ descent_set side (integer_matrix g.now) w.now.items }
    ensures word { IsWord g.now.rank result.items }
    ensures few { length result.items ≤ g.now.rank }
    ensures limit { g.now.rank ≤ MAX_RANK }
{
    descents_of(&heights_at(g, w, side), g.rank())
}

/// The heights whose left descents are the descents of w on that side.
pub(crate) fn heights_at(g: &Coxeter, w: &Word, side: Side) -> WideHeights
    requires letters { IsWord g.now.rank w.now.items }
    requires short { length w.now.items ≤ LETTERS_OF_128_BITS }
    ensures { AreHeights (integer_matrix g.now) (word_on_side side w.now.items) result.values }
{
    let heights = match side {
        Side::Left => of_word(g, w.as_slice()),
        Side::Right => of_reversed(g, w.as_slice()),
    };
    match heights {
        Some(heights) => heights,
        None => unreachable!(),
    }
}

/// The length of the element that w names.
pub fn length(g: &Coxeter, w: &Word) -> u32
    requires letters { IsWord g.now.rank w.now.items }
    requires short { length w.now.items ≤ LETTERS_OF_128_BITS }
    ensures length { result ≡ word_length (integer_matrix g.now) w.now.items }
    ensures no_longer { result ≤ length w.now.items }
    ensures limit { g.now.rank ≤ MAX_RANK }
{
    normal_form(g, w).len() as u32
}

/// The normal form of the element that w names: its ShortLex-first word. For example in A 2 that of `212` is `121`.
pub fn normal_form(g: &Coxeter, w: &Word) -> Word
    requires letters { IsWord g.now.rank w.now.items }
    requires short { length w.now.items ≤ LETTERS_OF_128_BITS }
    ensures form { result.items ≡ normal_form (integer_matrix g.now) w.now.items }
    ensures word { IsWord g.now.rank result.items }
    ensures no_longer { length result.items ≤ length w.now.items }
    ensures limit { g.now.rank ≤ MAX_RANK }
{
    let _rank = g.rank();
    match normal_form_of(g, heights_at(g, w, Side::Left)) {
        Some(form) => form,
        None => unreachable!(),
    }
}
