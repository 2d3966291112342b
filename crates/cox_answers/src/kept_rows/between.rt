//! The rows of the elements between two, and those of all members.
ghost use Rattle.std.specs.Prelude.{◌≡◌, ℕ, ◌<◌, ◌≤ℤ◌, pos, length, IsTrue, IfSome, IfErr, OnOk};
ghost use Rattle.cox_base.specs.IntegerMatrix.{integer_matrix};
ghost use Rattle.cox_context.specs.Numbers.{word_at};
ghost use Rattle.cox_row.specs.Rising.{number_at, AreWithin};
ghost use Rattle.cox_rows.specs.Beyond.{NeedsBeyond};
ghost use Rattle.cox_rows.specs.Holding.{HasRow};
ghost use Rattle.cox_answers.specs.Kept.{IsMore};
ghost use Rattle.cox_answers.specs.KeptBetween.{HasAllRows, IsFaultOfOne, IsReadOff};
ghost use Rattle.cox_replies.specs.InverseReply.{inverse_limit};

use crate::needs::Ends;
use cox_context::Context;
use cox_inverse::{LongestElement, MAX_COEFFICIENT};
use cox_klstep::StepFault;
use cox_rows::Rows;

/// Where at least this many members lie between two, the rows of the whole group are made, if it is finite. Each inverse polynomial can
/// then be read off one row. Otherwise it is summed up, in time in proportion to the square of the number of members: for this many, longer
/// than it takes to make those rows.
const MANY_BETWEEN: usize = 2_048;

/// Whether there are many members between the two with these numbers.
pub fn is_large(context: &Context, ends: Ends) -> bool
    requires low { ends.low < length context.now.members }
    requires high { ends.high < length context.now.members }
{
    if (context.len() as usize) < MANY_BETWEEN {
        return false;
    }
    let mut count: usize = 0;
    for z in ends.low..ends.high + 1 {
        if context.below(ends.low, z) && context.below(z, ends.high) {
            count = count.saturating_add(1);
        }
    }
    count >= MANY_BETWEEN
}

/// Whether the rows of all members are there.
pub fn has_all(rows: &Rows) -> bool
    ensures all { IsTrue result → HasAllRows rows.now }
    ensures found { ((i : ℕ) → i < length rows.now.elements.members → HasRow rows.now i) → IsTrue result }
{
    for i in 0..rows.context().len() {
        let Some(_) = rows.row(i) else {
            return false;
        };
    }
    true
}

/// What inverse polynomials may be read off, if the members are a whole finite group and no coefficient of their rows is too large.
pub fn find_longest(rows: &Rows) -> Option<LongestElement>
    requires { HasAllRows rows.now }
    ensures { IfSome result (IsReadOff rows.now) }
{
    LongestElement::of(rows.context(), rows, inverse_limit(rows.limit()))
}

/// How large a coefficient of an inverse polynomial may be in absolute value, where one of a row may be as large as the limit.
pub fn inverse_limit(limit: i64) -> i64
    requires { pos 0 ≤ℤ limit }
    ensures limit { result ≡ inverse_limit limit }
    ensures least { pos 0 ≤ℤ result }
    ensures most { result ≤ℤ MAX_COEFFICIENT }
{
    limit.min(MAX_COEFFICIENT)
}

/// Makes the rows of the members with these numbers that are not there, and those that they need.
pub fn ensure_each(rows: &mut Rows, numbers: &[u32]) -> Result<(), StepFault>
    requires { AreWithin (length rows.old.elements.members) numbers.now }
    ensures same { IsMore rows.old rows.new }
    ensures there { OnOk result ((k : ℕ) → k < length numbers.now → HasRow rows.new (number_at numbers.now k)) }
    ensures small { OnOk result ((k : ℕ) → k < length numbers.now
        → ¬ NeedsBeyond (integer_matrix rows.old.elements.matrix) rows.old.limit
        (word_at rows.old.elements.members (number_at numbers.now k))) }
    ensures fault { IfErr result (IsFaultOfOne rows.old.elements rows.old.limit numbers.now) }
{
    'each: for &z in numbers {
        rows.ensure(z)?;
    }
    Ok(())
}
