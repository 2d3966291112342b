//! Which members of a context a letter shortens, as bits of words, for each letter and side.
ghost use Rattle.std.specs.Prelude.{◌≡◌, ◌≢◌, ℕ, ◌+◌, ◌-◌, ◌%◌, ◌<◌, ◌≤◌, ◌↔◌, length, IfOk, OnOk, IsTrue};
ghost use Rattle.std.specs.Int.{bit_at};
ghost use Rattle.cox_base.specs.declared.side.Side.{Side};
ghost use Rattle.cox_base.specs.Matrix.{IsLetter};
ghost use Rattle.cox_base.specs.IntegerMatrix.{integer_matrix};
ghost use Rattle.cox_base.specs.SideDescents.{IsDescent};
ghost use Rattle.cox_context.specs.Numbers.{word_at};
ghost use Rattle.cox_row.specs.Rising.{number_at};
ghost use Rattle.cox_klstep.specs.DescentBits.{AreBits, AreLetterBits, AreDescentBits, AreEmpty};

use cox_base::Side;
use cox_context::Context;
use cox_row_symmetry::shortens;
use std::alloc::{AllocError, Global};

/// For each letter and side a list of words: bit x % 64 of the word x / 64 says whether the letter shortens the member x.
#[derive(Drop)]
pub struct DescentBits {
    /// From the left, for each letter.
    pub(crate) left: Vec<Vec<u64>>,
    /// From the right.
    pub(crate) right: Vec<Vec<u64>>,
    /// The members before this one are there.
    pub(crate) done: u32,
}

impl DescentBits {
    /// Of no members yet.
    pub(crate) fn new(alloc: Global, ctx: &Context) -> Result<DescentBits, AllocError>
        ensures { IfOk result (AreDescentBits ctx.now) }
    {
        let rank = ctx.matrix().rank() as usize;
        let left = empty_lists(alloc, rank)?;
        let right = empty_lists(alloc, rank)?;
        Ok(DescentBits {
            left,
            right,
            done: 0,
        })
    }

    /// Adds the members that are not there yet.
    pub(crate) fn add_members(&mut self, ctx: &Context) -> Result<(), AllocError>
        requires { AreDescentBits ctx.now self.old }
        ensures bits { AreDescentBits ctx.now self.new }
        ensures all { OnOk result (self.new.done ≡ length ctx.now.members) }
    {
        let _len = ctx.len();
        add_to_letters(ctx, Side::Left, self.done, &mut self.left)?;
        add_to_letters(ctx, Side::Right, self.done, &mut self.right)?;
        self.done = ctx.len();
        Ok(())
    }
}

/// So many empty lists.
fn empty_lists(alloc: Global, count: usize) -> Result<Vec<Vec<u64>>, AllocError>
    ensures { IfOk result (λ lists. AreEmpty count lists.items) }
{
    let mut lists = Vec::with_capacity(alloc, count)?;
    for _ in 0..count {
        push_empty(alloc, &mut lists)?;
    }
    Ok(lists)
}

/// One empty list more.
fn push_empty(alloc: Global, lists: &mut Vec<Vec<u64>>) -> Result<(), AllocError>
    ensures { (count : ℕ) → AreEmpty count lists.old.items → OnOk result (AreEmpty (count + 1) lists.new.items) }
{
    match lists.push(Vec::new(alloc)) {
        Ok(()) => Ok(()),
        Err(_) => Err(AllocError),
    }
}

/// Adds the members from a number on to the words of all letters.
fn add_to_letters(
    ctx: &Context,
    side: Side,
    from: u32,
    letters: &mut Vec<Vec<u64>>,
) -> Result<(), AllocError>
    requires from { from ≤ length ctx.now.members }
    requires letters { AreLetterBits ctx.now side from letters.old.items }
    ensures kept { AreLetterBits ctx.now side from letters.new.items }
    ensures added { OnOk result (AreLetterBits ctx.now side (length ctx.now.members) letters.new.items) }
{
    let _rank = ctx.matrix().rank();
    for k in 0..letters.len() {
        add_to_letter(ctx, side, k as u8 + 1, from, &mut letters[k])?;
    }
    Ok(())
}

/// Adds the members from a number on to the words of one letter.
fn add_to_letter(
    ctx: &Context,
    side: Side,
    s: u8,
    from: u32,
    words: &mut Vec<u64>,
) -> Result<(), AllocError>
    requires letter { IsLetter ctx.now.matrix.rank s }
    requires from { from ≤ length ctx.now.members }
    requires words { AreBits ctx.now side s from words.old.items }
    ensures kept { AreBits ctx.now side s from words.new.items }
    ensures added { OnOk result (AreBits ctx.now side s (length ctx.now.members) words.new.items) }
{
    let _len = ctx.len();
    let mut x = from;
    while x < ctx.len() {
        x = add_to_word(ctx, side, s, x, words)?;
    }
    Ok(())
}

/// Adds the members from a number on that have their bits in the same word, and tells up to which one.
fn add_to_word(
    ctx: &Context,
    side: Side,
    s: u8,
    from: u32,
    words: &mut Vec<u64>,
) -> Result<u32, AllocError>
    requires letter { IsLetter ctx.now.matrix.rank s }
    requires from { from < length ctx.now.members }
    requires words { AreBits ctx.now side s from words.old.items }
    ensures kept { AreBits ctx.now side s from words.new.items }
    ensures ahead { IfOk result (λ end. from < end) }
    ensures within { IfOk result (λ end. end ≤ length ctx.now.members) }
    ensures added { IfOk result (λ end. AreBits ctx.now side s end words.new.items) }
{
    let _len = ctx.len();
    let place = from as usize / 64;
    make_room(words, place)?;
    let end = word_end(from, ctx.len());
    words[place] = with_members(ctx, side, s, from, end, words[place]);
    Ok(end)
}

/// Up to which of so many members those from a number on have their bits in the same word.
fn word_end(from: u32, count: u32) -> u32
    requires { from < count }
    ensures ahead { from < result }
    ensures within { result ≤ count }
    ensures same { result ≤ from + 64 - from % 64 }
{
    from + (count - from).min(64 - from % 64)
}

/// Appends a word if there is none at a place.
fn make_room(words: &mut Vec<u64>, place: usize) -> Result<(), AllocError>
    requires { place ≤ length words.old.items }
    ensures room { OnOk result (place < length words.new.items) }
    ensures longer { length words.old.items ≤ length words.new.items }
    ensures same { (k : ℕ) → k < length words.old.items → number_at words.new.items k ≡ number_at words.old.items k }
{
    if place == words.len() {
        words.push(0)?;
    }
    Ok(())
}

/// A word with the bits of these members, which all have their bits in it.
fn with_members(ctx: &Context, side: Side, s: u8, from: u32, end: u32, word: u64) -> u64
    requires letter { IsLetter ctx.now.matrix.rank s }
    requires from { from ≤ end }
    requires end { end ≤ length ctx.now.members }
    requires same { end ≤ from + 64 - from % 64 }
    ensures before { (j : ℕ) → j < from % 64 → bit_at result j ≡ bit_at word j }
    ensures members { (y : ℕ) → from ≤ y → y < end
        → (bit_at result (y % 64) ≡ 1) ↔ IsDescent side (integer_matrix ctx.now.matrix) (word_at ctx.now.members y) s }
{
    let mut word = word;
    for x in from..end {
        word = with_bit(word, x % 64, shortens(ctx, side, s, x));
    }
    word
}

/// A word with this bit set or clear.
fn with_bit(word: u64, place: u32, is_set: bool) -> u64
    requires { place < 64 }
    ensures at { (bit_at result place ≡ 1) ↔ IsTrue is_set }
    ensures others { (j : ℕ) → j < 64 → j ≢ place → bit_at result j ≡ bit_at word j }
{
    if is_set {
        word | (1 << place)
    } else {
        word & !(1 << place)
    }
}
