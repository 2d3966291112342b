//! The members in lexicographic order: those that begin alike stand together.
ghost use Rattle.std.specs.Prelude.{◌≡◌, map, IsPermutation, IsSorted, IfOk};
ghost use Rattle.std.specs.Ordering.{nat_cmp};
ghost use Rattle.std.specs.Cmp.Lexicographic.{slice_cmp};
ghost use Rattle.cox_rowcheck.specs.Prefixes.{letters_of};

use cox_base::Word;
use cox_context::Context;
use std::alloc::{AllocError, Global};

/// The members, each as its word.
fn words(alloc: Global, ctx: &Context) -> Result<Vec<Word>, AllocError>
    ensures { IfOk result (λ words. map letters_of words.items ≡ ctx.now.members) }
{
    let mut words = Vec::with_capacity(alloc, ctx.len() as usize)?;
    for i in 0..ctx.len() {
        words.push(ctx.word(i))?;
    }
    Ok(words)
}

/// The members in lexicographic order.
pub(crate) fn words_in_order(alloc: Global, ctx: &Context) -> Result<Vec<Word>, AllocError>
    ensures permutation { IfOk result (λ words. IsPermutation ctx.now.members (map letters_of words.items)) }
    ensures sorted { IfOk result (λ words. IsSorted (λ v w. slice_cmp nat_cmp v.items w.items) words.items) }
{
    let mut words = words(alloc, ctx)?;
    words.sort_unstable();
    Ok(words)
}
