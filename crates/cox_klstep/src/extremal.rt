//! The extremal members up to one, chosen by the bits of their descents.
//!
//! Which members have all descents of w is found for 64 of them at a time. So what there is to do grows with the extremal members alone,
//! but for a few steps for each 64 members.
ghost use Rattle.std.specs.Prelude.{◌≡◌, ℕ, ◌+◌, ◌*◌, ◌/◌, ◌-◌, ◌^◌, ◌<◌, ◌≤◌, ◌↔◌, length, slice_get, IfSome, OnOk, min};
ghost use Rattle.std.specs.Int.RustNames.{bit_and};
ghost use Rattle.cox_row.specs.Rising.{number_at};
ghost use Rattle.cox_row_builder.specs.TargetOf.{IsTarget};
ghost use Rattle.cox_klstep.specs.DescentBits.{HasBit, HasLetters, AreDescentBits, AreNumbersOf};
ghost use Rattle.cox_klstep.specs.ExtremalUpTo.{AreExtremalUpTo};

use crate::descent_bits::DescentBits;
use cox_context::Context;
use cox_row_builder::Target;
use std::alloc::AllocError;

/// The extremal members up to a member, in place of what the list had. What the words were does not matter.
pub(crate) fn choose_extremal(
    ctx: &Context,
    target: &Target,
    bits: &DescentBits,
    words: &mut Vec<u64>,
    members: &mut Vec<u32>,
) -> Result<(), AllocError>
    requires target { IsTarget ctx.now target.now }
    requires bits { AreDescentBits ctx.now bits.now }
    requires done { target.now.member < bits.now.done }
    ensures { OnOk result (AreExtremalUpTo ctx.now target.now.member members.new.items) }
{
    set_all(words, target.member as usize / 64 + 1)?;
    list_extremal(ctx, target, bits, words, members)
}

/// The same, where all bits of the words are set.
fn list_extremal(
    ctx: &Context,
    target: &Target,
    bits: &DescentBits,
    words: &mut [u64],
    members: &mut Vec<u32>,
) -> Result<(), AllocError>
    requires target { IsTarget ctx.now target.now }
    requires bits { AreDescentBits ctx.now bits.now }
    requires done { target.now.member < bits.now.done }
    requires size { length words.old ≡ target.now.member / 64 + 1 }
    requires all { (k : ℕ) → k < target.now.member / 64 + 1 → number_at words.old k ≡ 2 ^ 64 - 1 }
    ensures { OnOk result (AreExtremalUpTo ctx.now target.now.member members.new.items) }
{
    let _len = ctx.len();
    let _rank = ctx.matrix().rank();
    keep_with(words, &bits.left, target.left);
    keep_with(words, &bits.right, target.right);
    list_members(words, target.member, members)
}

/// Becomes so many words with all bits set.
fn set_all(words: &mut Vec<u64>, count: usize) -> Result<(), AllocError>
    ensures size { OnOk result (length words.new.items ≡ count) }
    ensures all { OnOk result ((k : ℕ) → k < count → number_at words.new.items k ≡ 2 ^ 64 - 1) }
{
    words.clear();
    words.resize(count, u64::MAX)?;
    Ok(())
}

/// Keeps the bits of the members that all letters of a set shorten, by the words of each letter.
fn keep_with(words: &mut [u64], letters: &[Vec<u64>], set: u16)
    requires few { length letters.now ≤ 16 }
    requires room { (k : ℕ) → IfSome (slice_get letters.now k) (λ list. length words.old ≤ length list.items) }
    ensures size { length words.new ≡ length words.old }
    ensures kept { (y : ℕ) → y < 64 * length words.old
        → HasBit words.new y ↔ (HasBit words.old y × HasLetters letters.now set (length letters.now) y) }
{
    for k in 0..letters.len() {
        if (set >> k) & 1 == 1 {
            keep_common(words, &letters[k]);
        }
    }
}

/// Keeps the bits that are set in other words too.
fn keep_common(words: &mut [u64], others: &[u64])
    requires { length words.old ≤ length others.now }
    ensures size { length words.new ≡ length words.old }
    ensures each { (k : ℕ) → k < length words.old → number_at words.new k ≡ bit_and (number_at words.old k) (number_at others.now k) }
{
    for k in 0..words.len() {
        words[k] &= others[k];
    }
}

/// The members up to one whose bits are set, rising by number, in place of what the list had.
fn list_members(words: &[u64], last: u32, members: &mut Vec<u32>) -> Result<(), AllocError>
    requires { length words.now ≡ last / 64 + 1 }
    ensures { OnOk result (AreNumbersOf words.now (last + 1) members.new.items) }
{
    members.clear();
    for place in 0..words.len() {
        add_members(words, place, last, members)?;
    }
    Ok(())
}

/// Adds those up to one whose bits are in the word at a place.
fn add_members(
    words: &[u64],
    place: usize,
    last: u32,
    members: &mut Vec<u32>,
) -> Result<(), AllocError>
    requires place { place < length words.now }
    requires last { place * 64 ≤ last }
    requires before { AreNumbersOf words.now (place * 64) members.old.items }
    ensures { OnOk result (AreNumbersOf words.now (min (place * 64 + 64) (last + 1)) members.new.items) }
{
    let first = place as u32 * 64;
    let mut rest = words[place];
    let mut from = 0;
    while rest != 0 {
        let lowest = rest.trailing_zeros();
        if first + lowest > last {
            return Ok(());
        }
        members.push(first + lowest)?;
        rest &= !(1 << lowest);
        from = lowest + 1;
    }
    prove!(from <= 64);
    Ok(())
}
