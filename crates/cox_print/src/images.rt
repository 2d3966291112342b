//! Images of elements under letters, as in the module of a left cell, and their coefficients.
ghost use Rattle.std.specs.Prelude.{◌<◌, ◌≤◌, ◌++◌, codes, decimal};
ghost use Rattle.cox_base.specs.Matrix.{IsWord};
ghost use Rattle.cox_poly.specs.Puts.{Puts};
ghost use Rattle.cox_poly.specs.PolynomialText.{factor_text};
ghost use Rattle.cox_print.specs.AnswerText.{element_text};

use crate::NoMemory;
use crate::items::put_other_element;
use crate::putting::put_natural;
use cox_base::{MAX_RANK, Word};
use cox_poly::append::put_text;
use cox_poly::put_factor;

/// Appends what stands before the image of an element under a letter: the letter, a space, the element and `:`, as in `1 21:`. `rank` is
/// that of the group.
pub fn put_image_head(out: &mut Vec<u8>, rank: u32, s: u8, x: &Word) -> Result<(), NoMemory>
    requires rank { rank ≤ MAX_RANK }
    requires word { IsWord rank x.now.items }
    ensures { Puts result (decimal s ++ (codes " " ++ element_text rank x.now.items) ++ codes ":") out.old.items out.new.items }
{
    put_natural(out, u64::from(s))?;
    put_other_element(out, rank, x)?;
    put_text(out, b":")
}

/// Appends what stands before the coefficient of an element in an image: a space, the element and `=`, as in ` 21=`. `rank` is that of the
/// group.
pub fn put_term_head(out: &mut Vec<u8>, rank: u32, y: &Word) -> Result<(), NoMemory>
    requires rank { rank ≤ MAX_RANK }
    requires word { IsWord rank y.now.items }
    ensures { Puts result (codes " " ++ element_text rank y.now.items ++ codes "=") out.old.items out.new.items }
{
    put_other_element(out, rank, y)?;
    put_text(out, b"=")
}

/// Appends a number times v, which is q^(1/2), as in `v`, `-v` and `2v`.
pub fn put_half(out: &mut Vec<u8>, m: i64) -> Result<(), NoMemory>
    ensures { Puts result (factor_text 1 m ++ codes "v") out.old.items out.new.items }
{
    put_factor(out, 1, m)?;
    put_text(out, b"v")
}
