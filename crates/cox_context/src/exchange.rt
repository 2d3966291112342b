//! Appends the elements below an element letter by letter, by strong exchange: where few of its letters are left.
//!
//! The letters of a reduced word of w are taken from the last one on. The element v of the letters that were taken is a member, and the
//! next letter s leads to s v. Where s v is no member, it is appended, behind all elements below it that are none.
//!
//! For a member x these are found along its word. Let y = s x be no member. Then y is longer than x, and an element below y is below x, or
//! is y, or is below z or s z, where the word of x without one of its letters names z (strong exchange, Humphreys 5.8). Each such z is
//! below x, and so it is a member. The elements s z are made members first, in the same way, and then y is appended. So the members stay
//! closed downwards, and their numbers rise in Bruhat order.
//!
//! No other member is looked at, and nothing is kept but the members. So a growth costs time in proportion to the new members, with the
//! rank and the square of its length for each.
ghost use Rattle.std.specs.Prelude.{◌≡◌, ℕ, List, ◌+◌, ◌<◌, ◌≤◌, ◌∷◌, ◌↔◌, [], length, OnOk, IfOk, IfErr, Contains};
ghost use Rattle.std.specs.Prelude.{◌++◌, Some};
ghost use Rattle.cox_base.specs.Matrix.{IsLetter};
ghost use Rattle.cox_base.specs.IntegerMatrix.{integer_matrix};
ghost use Rattle.cox_base.specs.ShortLex.{normal_form};
ghost use Rattle.cox_context.specs.Appending.{IsTopWord, IsNextMember, without_letter};
ghost use Rattle.cox_context.specs.FaultMeaning.{IsOverfull};
ghost use Rattle.cox_context.specs.Numbering.{IsNumberOf};
ghost use Rattle.cox_context.specs.Numbers.{word_at};
ghost use Rattle.cox_context.specs.Spread.{AreKept, AreAppended, IsGrownBy};
ghost use Rattle.cox_context.specs.Union.{IsInUnion};

use crate::ContextFault;
use crate::context::Context;
use crate::members::MAX_MEMBERS;
use cox_base::{MAX_LETTERS, Word};

/// Appends the elements below the element of a reduced word. After a fault some of them are there.
pub(crate) fn append_by_exchange(
    context: &mut Context,
    top: &Word,
    limit: u32,
) -> Result<(), ContextFault>
    requires top { IsTopWord context.old.matrix top.now.items }
    requires limit { limit ≤ MAX_MEMBERS }
    requires room { length context.old.members ≤ limit }
    ensures matrix { context.new.matrix ≡ context.old.matrix }
    ensures kept { AreKept context.old.members context.new.members }
    ensures members { OnOk result ((word : List ℕ) → Contains context.new.members word
        ↔ IsInUnion (integer_matrix context.old.matrix) top.now.items context.old.members word) }
    ensures few { length context.new.members ≤ limit }
    ensures refused { IfErr result (IsOverfull (IsInUnion (integer_matrix context.old.matrix) top.now.items context.old.members) limit) }
{
    let _count = context.len();
    let letters = top.len();
    let mut at = 0;
    for done in 0..letters {
        at = append_shift(context, top[letters - 1 - done], at, limit)?;
    }
    let _count = context.len();
    Ok(())
}

/// Makes s x a member, for the member x with the number i, and tells its number. Where it is none, it is appended behind those elements
/// below it that are none.
fn append_shift(context: &mut Context, s: u8, i: u32, limit: u32) -> Result<u32, ContextFault>
    requires letter { IsLetter context.old.matrix.rank s }
    requires member { i < length context.old.members }
    requires short { length (word_at context.old.members i) < MAX_LETTERS }
    requires limit { limit ≤ MAX_MEMBERS }
    requires room { length context.old.members ≤ limit }
    ensures matrix { context.new.matrix ≡ context.old.matrix }
    ensures appended { AreAppended (integer_matrix context.old.matrix) (s ∷ word_at context.old.members i)
        context.old.members context.new.members }
    ensures few { length context.new.members ≤ limit }
    ensures number { IfOk result (λ k. IsNumberOf context.new.members
        (normal_form (integer_matrix context.old.matrix) (s ∷ word_at context.old.members i)) (Some k)) }
    ensures refused { IfErr result
        (IsOverfull (IsInUnion (integer_matrix context.old.matrix) (s ∷ word_at context.old.members i) context.old.members) limit) }
{
    let _count = context.len();
    if let Some(k) = context.left(s, i) {
        return Ok(k);
    }
    for at in 0..context.length(i) {
        let _count = context.len();
        let shorter = without_letter(context, i, at);
        append_shift(context, s, shorter, limit)?;
    }
    let _count = context.len();
    append_next(context, s, i, limit)
}

/// The number of the element that the word of a member names without its letter at this place, from 0.
fn without_letter(context: &Context, i: u32, at: u32) -> u32
    requires member { i < length context.now.members }
    requires at { at < length (word_at context.now.members i) }
    ensures member { result < length context.now.members }
    ensures word { word_at context.now.members result
        ≡ normal_form (integer_matrix context.now.matrix) (without_letter at (word_at context.now.members i)) }
    ensures shorter { result < i }
{
    let _count = context.len();
    let link = context.link(i);
    if at == 0 {
        return link.rest;
    }
    let rest = without_letter(context, link.rest, at - 1);
    match context.left(link.first, rest) {
        Some(k) => k,
        None => unreachable!(),
    }
}

/// Appends s x, for the member x with the number i, if the limit admits one more, and tells its number. After a fault all is as before.
fn append_next(context: &mut Context, s: u8, i: u32, limit: u32) -> Result<u32, ContextFault>
    requires letter { IsLetter context.old.matrix.rank s }
    requires member { i < length context.old.members }
    requires limit { limit ≤ MAX_MEMBERS }
    requires room { length context.old.members ≤ limit }
    requires next { IsNextMember context.old.matrix context.old.members s i }
    ensures matrix { context.new.matrix ≡ context.old.matrix }
    ensures members { IsGrownBy (normal_form (integer_matrix context.old.matrix) (s ∷ word_at context.old.members i))
        context.old.members context.new.members }
    ensures few { length context.new.members ≤ limit }
    ensures number { IfOk result (λ k. IsNumberOf context.new.members
        (normal_form (integer_matrix context.old.matrix) (s ∷ word_at context.old.members i)) (Some k)) }
    ensures refused { IfErr result (IsOverfull (Contains (context.old.members
        ++ normal_form (integer_matrix context.old.matrix) (s ∷ word_at context.old.members i) ∷ [])) limit) }
{
    let number = context.len();
    if number >= limit {
        return Err(ContextFault::Size {
            limit,
            seen: limit + 1,
        });
    }
    match context.append(s, i) {
        Ok(()) => Ok(number),
        Err(_) => Err(ContextFault::NoMemory),
    }
}
