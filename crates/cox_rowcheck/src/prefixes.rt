//! The columns of the prefixes of a word, one behind the other.
ghost use Rattle.std.specs.Prelude.{◌≡◌, ◌≢◌, ◌+◌, ◌<◌, ◌≤◌, length, take, slice_index, Contains, OnOk};
ghost use Rattle.cox_base.specs.IntegerMatrix.{integer_matrix};
ghost use Rattle.cox_rpoly.specs.declared.TheConstants.{MAX_DIFFERENCE};
ghost use Rattle.cox_rowcheck.specs.Prefixes.{ArePrefixes};

use crate::column::{Column, longer};
use cox_base::Word;
use cox_context::Context;
use std::alloc::{AllocError, Global};

/// How many letters two words have in common before the first that differs.
pub(crate) fn common(last: &[u8], word: &[u8]) -> usize
    ensures last { result ≤ length last.now }
    ensures word { result ≤ length word.now }
    ensures same { take result last.now ≡ take result word.now }
    ensures whole { result < length last.now → result < length word.now → slice_index last.now result ≢ slice_index word.now result }
{
    let end = last.len().min(word.len());
    for i in 0..end {
        if last[i] != word[i] {
            return i;
        }
    }
    end
}

/// Adds the columns of the prefixes of a member that are not there yet, so that its own is the last.
pub(crate) fn climb(
    alloc: Global,
    ctx: &Context,
    stack: &mut Vec<Column>,
    word: &Word,
) -> Result<(), AllocError>
    requires member { Contains ctx.now.members word.now.items }
    requires short { length word.now.items ≤ MAX_DIFFERENCE }
    requires stack { ArePrefixes (integer_matrix ctx.now.matrix) ctx.now.members word.now.items stack.old.items }
    ensures prefixes { OnOk result (ArePrefixes (integer_matrix ctx.now.matrix) ctx.now.members word.now.items stack.new.items) }
    ensures whole { OnOk result (length stack.new.items ≡ length word.now.items + 1) }
{
    let _len = ctx.len();
    let letters = word.as_slice();
    for i in stack.len() - 1..letters.len() {
        let next = longer(alloc, ctx, &stack[i], letters[i])?;
        stack.push(next)?;
    }
    Ok(())
}
