//! Whether a group is seen to be finite: by its longest element.
ghost use Rattle.std.specs.Prelude.{ℕ, Contains, IfSome, IfNone};
ghost use Rattle.cox_base.specs.Admissible.{IsCoxeterMatrix};
ghost use Rattle.cox_base.specs.Matrix.{IsLetter, IsWord};
ghost use Rattle.cox_base.specs.IntegerMatrix.{integer_matrix};
ghost use Rattle.cox_base.specs.Descents.{right_descents};

use cox_base::{MAX_LETTERS, MAX_RANK, Word};
use cox_minroots::RootTable;

/// How many letters the longest element has at most in a finite group of at most `MAX_MEMBERS` elements: in B 7, of 645,120 elements, it
/// has 49. It only saves tries that would fail.
const MOST_LETTERS: usize = 49;

/// A word with all letters among its right descents, found by adding letters that are not: the longest element of a finite group.
///
/// It is `None` for every infinite group, and if the longest element has `MAX_LETTERS` letters or more, as in B 16. A caller must not take
/// `None` for a fact about the group: the contract says nothing of it.
pub fn longest_word(table: &RootTable) -> Option<Word>
    requires { IsCoxeterMatrix table.now }
    ensures word { IfSome result (λ w. IsWord table.now.rank w.items) }
    ensures longest { IfSome result (λ w. (s : ℕ) → IsLetter table.now.rank s
        → Contains (right_descents (integer_matrix table.now) w.items) s) }
{
    let mut word = Word::new();
    for _ in 0..MAX_LETTERS {
        match missing_letter(table, &word) {
            Some(s) => word.push(s),
            None => return Some(word),
        }
    }
    None
}

/// The longest element, if the group may have at most `MAX_MEMBERS` elements.
pub fn longest_of_few(table: &RootTable) -> Option<Word>
    requires { IsCoxeterMatrix table.now }
    ensures word { IfSome result (λ w. IsWord table.now.rank w.items) }
{
    let longest = longest_word(table)?;
    if longest.len() > MOST_LETTERS {
        return None;
    }
    Some(longest)
}

/// The least letter that is no right descent of a word, if there is one.
fn missing_letter(table: &RootTable, word: &Word) -> Option<u8>
    requires group { IsCoxeterMatrix table.now }
    requires word { IsWord table.now.rank word.now.items }
    ensures letter { IfSome result (IsLetter table.now.rank) }
    ensures missing { IfSome result (λ s. ¬ Contains (right_descents (integer_matrix table.now) word.now.items) s) }
    ensures none { IfNone result ((s : ℕ) → IsLetter table.now.rank s
        → Contains (right_descents (integer_matrix table.now) word.now.items) s) }
{
    let rank = table.group().rank();
    prove!(rank as usize <= MAX_RANK);
    let descents = table.right_descents(word);
    for s in 1..rank + 1 {
        if !descents.as_slice().contains(&(s as u8)) {
            return Some(s as u8);
        }
    }
    None
}
