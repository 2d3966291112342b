//! Whole lines, without their ends.
ghost use Rattle.std.specs.Prelude.{◌≤◌};
ghost use Rattle.cox_base.specs.Matrix.{IsWord};
ghost use Rattle.cox_poly.specs.Puts.{Puts};
ghost use Rattle.cox_print.specs.AnswerText.{descent_text, truth_text, refusal_text, count_text, work_text};

use crate::NoMemory;
use crate::element::put_set;
use crate::putting::{put_count, put_natural};
use cox_base::{MAX_RANK, Word};
use cox_poly::append::put_text;

/// Appends `L `, the left descents, ` R ` and the right descents.
pub fn put_descent(out: &mut Vec<u8>, rank: u32, left: &Word, right: &Word) -> Result<(), NoMemory>
    requires rank { rank ≤ MAX_RANK }
    requires left { IsWord rank left.now.items }
    requires right { IsWord rank right.now.items }
    ensures { Puts result (descent_text rank left.now.items right.now.items) out.old.items out.new.items }
{
    put_text(out, b"L ")?;
    put_set(out, rank, left)?;
    put_text(out, b" R ")?;
    put_set(out, rank, right)
}

/// Appends `true` or `false`.
pub fn put_truth(out: &mut Vec<u8>, truth: bool) -> Result<(), NoMemory>
    ensures { Puts result (truth_text truth) out.old.items out.new.items }
{
    put_text(out, if truth { b"true" } else { b"false" })
}

/// Appends `error ` and the number of a refusal.
pub fn put_refusal(out: &mut Vec<u8>, n: u8) -> Result<(), NoMemory>
    ensures { Puts result (refusal_text n) out.old.items out.new.items }
{
    put_text(out, b"error ")?;
    put_count(out, n as usize)
}

/// Appends what `work` found: how many words, how many entries their rows have, the largest degree of a polynomial, and the sum of all
/// coefficients, as in `words 1 entries 4 degree 0 sum 4`.
pub fn put_work(
    out: &mut Vec<u8>,
    words: u64,
    entries: u64,
    degree: u32,
    sum: u64,
) -> Result<(), NoMemory>
    ensures { Puts result (work_text words entries degree sum) out.old.items out.new.items }
{
    put_named_count(out, b"words", words)?;
    put_named_count(out, b" entries", entries)?;
    put_named_count(out, b" degree", u64::from(degree))?;
    put_named_count(out, b" sum", sum)
}

/// Appends a name, a space and a count.
fn put_named_count(out: &mut Vec<u8>, name: &[u8], n: u64) -> Result<(), NoMemory>
    ensures { Puts result (count_text name.now n) out.old.items out.new.items }
{
    put_text(out, name)?;
    put_text(out, b" ")?;
    put_natural(out, n)
}
