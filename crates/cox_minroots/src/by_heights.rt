//! What heights in 64 bits tell of words; None where a number overflows. Nothing here takes the table.
ghost use Rattle.std.specs.Prelude.{◌≡◌, ◌≤◌, ◌↔◌, length, IfSome, IsTrue};
ghost use Rattle.cox_base.specs.Matrix.{IsWord};
ghost use Rattle.cox_base.specs.IntegerMatrix.{integer_matrix};
ghost use Rattle.cox_base.specs.Bruhat.{IsBelow};
ghost use Rattle.cox_base.specs.Reduced.{IsReduced};
ghost use Rattle.cox_base.specs.ShortLex.{normal_form};
ghost use Rattle.cox_reflect.specs.Height.{AreHeights};
ghost use Rattle.cox_base.specs.SideDescents.{descent_set};
ghost use Rattle.cox_reflect.specs.Side.{word_on_side};

use cox_base::{Coxeter, MAX_LETTERS, Side, Word};
use cox_reflect::{Heights, below_reduced};

/// The heights whose left descents are the descents of w on that side.
fn heights_at(g: &Coxeter, w: &Word, side: Side) -> Option<Heights>
    requires { IsWord g.now.rank w.now.items }
    ensures { IfSome result (λ h. AreHeights (integer_matrix g.now) (word_on_side side w.now.items) h.values) }
{
    match side {
        Side::Left => Heights::of_word(g, w),
        Side::Right => Heights::of_reversed(g, w),
    }
}

/// The normal form of the element that w names, or on the right of its inverse.
pub(crate) fn normal_form(g: &Coxeter, w: &Word, side: Side) -> Option<Word>
    requires { IsWord g.now.rank w.now.items }
    ensures form { IfSome result (λ form. form.items ≡ normal_form (integer_matrix g.now) (word_on_side side w.now.items)) }
    ensures reduced { IfSome result (λ form. IsReduced (integer_matrix g.now) form.items) }
    ensures word { IfSome result (λ form. IsWord g.now.rank form.items) }
    ensures no_longer { IfSome result (λ form. length form.items ≤ length w.now.items) }
{
    let _rank = g.rank();
    prove!(w.len() <= MAX_LETTERS);
    heights_at(g, w, side)?.normal_form(g)
}

/// The descents on that side, rising.
pub(crate) fn descents(g: &Coxeter, w: &Word, side: Side) -> Option<Word>
    requires { IsWord g.now.rank w.now.items }
    ensures descents { IfSome result (λ found. found.items ≡ descent_set side (integer_matrix g.now) w.now.items) }
    ensures word { IfSome result (λ found. IsWord g.now.rank found.items) }
    ensures few { IfSome result (λ found. length found.items ≤ g.now.rank) }
{
    let rank = g.rank();
    Some(heights_at(g, w, side)?.descents(rank))
}

/// Whether y <= w in Bruhat order.
pub(crate) fn below(g: &Coxeter, y: &Word, w: &Word) -> Option<bool>
    requires letters_y { IsWord g.now.rank y.now.items }
    requires letters_w { IsWord g.now.rank w.now.items }
    ensures { IfSome result (λ answer. IsTrue answer ↔ IsBelow (integer_matrix g.now) y.now.items w.now.items) }
{
    let _rank = g.rank();
    let form = normal_form(g, w, Side::Left)?;
    below_reduced(g, Heights::of_word(g, y)?, form.as_slice())
}
