//! Appends the elements below an element by lists of what is below each end of its word: where many of its letters are left.
//!
//! Let w = s v with l(w) = l(v) + 1. The elements below w are those below v and the s x with x below v. So the letters of w are taken from
//! the last one on. The members below v are listed and marked, and for each of them, in the order of the list, s x is put behind the others
//! in that list, where it is not marked, and is appended where it is no member yet. Then each element below s x stands before it in the
//! list: it is below x, or it is s z with z below x. So the members stay closed downwards, and their numbers rise in Bruhat order.
//!
//! Nothing here goes through all members but the making of the marks. So a growth costs time in proportion to the new members and the rank,
//! and to the elements below the ends of w together.
ghost use Rattle.std.specs.Prelude.{◌≡◌, ℕ, List, ◌+◌, ◌<◌, ◌≤◌, ◌∷◌, ◌↔◌, [], length, drop, slice_index, OnOk, IfOk, Contains};
ghost use Rattle.std.specs.Prelude.{◌++◌, IfErr};
ghost use Rattle.cox_base.specs.Matrix.{IsLetter};
ghost use Rattle.cox_base.specs.IntegerMatrix.{integer_matrix};
ghost use Rattle.cox_base.specs.ShortLex.{normal_form};
ghost use Rattle.cox_context.specs.Appending.{IsTopWord, IsNextMember};
ghost use Rattle.cox_context.specs.FaultMeaning.{IsOverfull};
ghost use Rattle.cox_context.specs.Numbers.{word_at};
ghost use Rattle.cox_context.specs.Spread.{listed_words, AreKept, AreMarked, AreFound, IsFound, AreAppended, IsGrownBy};
ghost use Rattle.cox_context.specs.Union.{IsInUnion};

use crate::ContextFault;
use crate::context::Context;
use crate::members::MAX_MEMBERS;
use cox_base::Word;
use std::alloc::{AllocError, Global};

/// The numbers of the members below an element, in the order in which they were found, and for each member whether it is one of them.
#[derive(Drop)]
pub(crate) struct Found {
    numbers: Vec<u32>,
    marks: Vec<bool>,
}

/// Appends the elements below the element of a reduced word. After a fault some of them are there.
pub(crate) fn append_by_lists(
    alloc: Global,
    context: &mut Context,
    top: &Word,
    limit: u32,
) -> Result<(), ContextFault>
    requires top { IsTopWord context.old.matrix top.now.items }
    requires limit { limit ≤ MAX_MEMBERS }
    requires room { length context.old.members ≤ limit }
    ensures matrix { context.new.matrix ≡ context.old.matrix }
    ensures kept { AreKept context.old.members context.new.members }
    ensures members { OnOk result ((word : List ℕ) → Contains context.new.members word
        ↔ IsInUnion (integer_matrix context.old.matrix) top.now.items context.old.members word) }
    ensures few { length context.new.members ≤ limit }
    ensures refused { IfErr result (IsOverfull (IsInUnion (integer_matrix context.old.matrix) top.now.items context.old.members) limit) }
{
    let _count = context.len();
    let Ok(mut found) = Found::new(alloc, context) else {
        return Err(ContextFault::NoMemory);
    };
    let letters = top.len();
    for done in 0..letters {
        step(context, &mut found, top, letters - 1 - done, limit)?;
    }
    let _count = context.len();
    Ok(())
}

/// From the members below the end of the word behind this letter to those below the end from this letter on.
fn step(
    context: &mut Context,
    found: &mut Found,
    top: &Word,
    at: usize,
    limit: u32,
) -> Result<(), ContextFault>
    requires top { IsTopWord context.old.matrix top.now.items }
    requires at { at < length top.now.items }
    requires limit { limit ≤ MAX_MEMBERS }
    requires room { length context.old.members ≤ limit }
    requires marked { AreMarked context.old.members found.old.marks.items found.old.numbers.items }
    requires found { AreFound (integer_matrix context.old.matrix) (drop (at + 1) top.now.items)
        (listed_words context.old.members found.old.numbers.items) }
    ensures matrix { context.new.matrix ≡ context.old.matrix }
    ensures appended { AreAppended (integer_matrix context.old.matrix) (drop at top.now.items) context.old.members context.new.members }
    ensures few { length context.new.members ≤ limit }
    ensures marked { OnOk result (AreMarked context.new.members found.new.marks.items found.new.numbers.items) }
    ensures found { OnOk result (AreFound (integer_matrix context.old.matrix) (drop at top.now.items)
        (listed_words context.new.members found.new.numbers.items)) }
    ensures refused { IfErr result
        (IsOverfull (IsInUnion (integer_matrix context.old.matrix) (drop at top.now.items) context.old.members) limit) }
{
    let s = top[at];
    let _count = context.len();
    for place in 0..found.numbers.len() {
        let _count = context.len();
        found.find(context, s, place, limit)?;
    }
    Ok(())
}

impl Found {
    /// The identity alone.
    fn new(alloc: Global, context: &Context) -> Result<Found, AllocError>
        ensures marked { IfOk result (λ f. AreMarked context.now.members f.marks.items f.numbers.items) }
        ensures found { IfOk result (λ f. listed_words context.now.members f.numbers.items ≡ [] ∷ []) }
    {
        let mut marks = vec![in alloc; false; context.len() as usize]?;
        marks[0] = true;
        let numbers = vec![in alloc; 0; 1]?;
        Ok(Found { numbers, marks })
    }

    /// Finds s x, for the member x at this place of the list: it is put behind the others in the list, if it is not there, and appended to
    /// the members, where it is none.
    fn find(
        &mut self,
        context: &mut Context,
        s: u8,
        place: usize,
        limit: u32,
    ) -> Result<(), ContextFault>
        requires letter { IsLetter context.old.matrix.rank s }
        requires place { place < length self.old.numbers.items }
        requires limit { limit ≤ MAX_MEMBERS }
        requires room { length context.old.members ≤ limit }
        requires marked { AreMarked context.old.members self.old.marks.items self.old.numbers.items }
        requires next { (Contains context.old.members
            (normal_form (integer_matrix context.old.matrix)
            (s ∷ word_at context.old.members (slice_index self.old.numbers.items place))) → ⊥)
            → IsNextMember context.old.matrix context.old.members s (slice_index self.old.numbers.items place) }
        ensures matrix { context.new.matrix ≡ context.old.matrix }
        ensures members { IsGrownBy
            (normal_form (integer_matrix context.old.matrix) (s ∷ word_at context.old.members (slice_index self.old.numbers.items place)))
            context.old.members context.new.members }
        ensures few { length context.new.members ≤ limit }
        ensures marked { OnOk result (AreMarked context.new.members self.new.marks.items self.new.numbers.items) }
        ensures found { OnOk result (IsFound
            (normal_form (integer_matrix context.old.matrix) (s ∷ word_at context.old.members (slice_index self.old.numbers.items place)))
            (listed_words context.old.members self.old.numbers.items) (listed_words context.new.members self.new.numbers.items)) }
        ensures refused { IfErr result (IsOverfull (Contains (context.old.members ++ normal_form (integer_matrix context.old.matrix)
            (s ∷ word_at context.old.members (slice_index self.old.numbers.items place)) ∷ [])) limit) }
    {
        let x = self.numbers[place];
        match context.left(s, x) {
            Some(k) => self.list(context, k),
            None => self.append(context, s, x, limit),
        }
    }

    /// Puts a member behind the others in the list, if it is not there.
    fn list(&mut self, context: &Context, k: u32) -> Result<(), ContextFault>
        requires member { k < length context.now.members }
        requires marked { AreMarked context.now.members self.old.marks.items self.old.numbers.items }
        ensures marked { OnOk result (AreMarked context.now.members self.new.marks.items self.new.numbers.items) }
        ensures found { OnOk result (IsFound (word_at context.now.members k)
            (listed_words context.now.members self.old.numbers.items) (listed_words context.now.members self.new.numbers.items)) }
        ensures fault { IfErr result (λ fault. fault ≡ ContextFault.NoMemory) }
    {
        let _count = context.len();
        if self.marks[k as usize] {
            return Ok(());
        }
        if self.numbers.push(k).is_err() {
            return Err(ContextFault::NoMemory);
        }
        self.marks[k as usize] = true;
        Ok(())
    }

    /// Appends s x, for the member x with the number j, to the members and to the list, if the limit admits one more.
    ///
    /// Room is made in the list first, so that it has each new member.
    fn append(
        &mut self,
        context: &mut Context,
        s: u8,
        j: u32,
        limit: u32,
    ) -> Result<(), ContextFault>
        requires letter { IsLetter context.old.matrix.rank s }
        requires member { j < length context.old.members }
        requires limit { limit ≤ MAX_MEMBERS }
        requires room { length context.old.members ≤ limit }
        requires marked { AreMarked context.old.members self.old.marks.items self.old.numbers.items }
        requires next { IsNextMember context.old.matrix context.old.members s j }
        ensures matrix { context.new.matrix ≡ context.old.matrix }
        ensures members { IsGrownBy (normal_form (integer_matrix context.old.matrix) (s ∷ word_at context.old.members j))
            context.old.members context.new.members }
        ensures few { length context.new.members ≤ limit }
        ensures marked { OnOk result (AreMarked context.new.members self.new.marks.items self.new.numbers.items) }
        ensures found { OnOk result (IsFound (normal_form (integer_matrix context.old.matrix) (s ∷ word_at context.old.members j))
            (listed_words context.old.members self.old.numbers.items) (listed_words context.new.members self.new.numbers.items)) }
        ensures refused { IfErr result (IsOverfull (Contains (context.old.members
            ++ normal_form (integer_matrix context.old.matrix) (s ∷ word_at context.old.members j) ∷ [])) limit) }
    {
        let number = context.len();
        if number >= limit {
            return Err(ContextFault::Size {
                limit,
                seen: limit + 1,
            });
        }
        if self.numbers.reserve(1).is_err()
            || self.marks.reserve(1).is_err()
            || context.append(s, j).is_err()
        {
            return Err(ContextFault::NoMemory);
        }
        self.numbers.push_reserved(number);
        self.marks.push_reserved(true);
        Ok(())
    }
}
