//! Normal forms, lengths, descents, inverses and products of words: by heights, and where a sum overflows by the table.
ghost use Rattle.std.specs.Prelude.{◌≡◌, ◌+◌, ◌≤◌, ◌<◌, [], ◌∷◌, ◌++◌, length, reverse, IfSome, MatchOption};
ghost use Rattle.cox_base.specs.Matrix.{IsLetter, IsWord};
ghost use Rattle.cox_base.specs.IntegerMatrix.{integer_matrix};
ghost use Rattle.cox_base.specs.Length.{word_length};
ghost use Rattle.cox_base.specs.Descents.{left_descents, right_descents};
ghost use Rattle.cox_base.specs.Reduced.{IsReduced};
ghost use Rattle.cox_base.specs.ShortLex.{normal_form};

use crate::{RootTable, by_heights};
use cox_base::{MAX_LETTERS, MAX_RANK, Side, Word, copy_word};

impl RootTable {
    /// The normal form of the element that w names: its ShortLex-first word. For example in A 2 that of `212` is `121`.
    pub fn normal_form(&self, w: &Word) -> Word
        requires { IsWord self.now.rank w.now.items }
        ensures form { result.items ≡ normal_form (integer_matrix self.now) w.now.items }
        ensures reduced { IsReduced (integer_matrix self.now) result.items }
        ensures word { IsWord self.now.rank result.items }
        ensures no_longer { length result.items ≤ length w.now.items }
    {
        if let Some(form) = by_heights::normal_form(&self.group, w, Side::Left) {
            return form;
        }
        self.form_of_inverse(self.reduced_inverse(w))
    }

    /// The length of the element that w names.
    pub fn length(&self, w: &Word) -> u32
        requires { IsWord self.now.rank w.now.items }
        ensures length { result ≡ word_length (integer_matrix self.now) w.now.items }
        ensures no_longer { result ≤ length w.now.items }
    {
        self.normal_form(w).len() as u32
    }

    /// The letters s with l(sw) < l(w), rising. For example in A 3 the word `12` has the left descents 1.
    pub fn left_descents(&self, w: &Word) -> Word
        requires { IsWord self.now.rank w.now.items }
        ensures descents { result.items ≡ left_descents (integer_matrix self.now) w.now.items }
        ensures word { IsWord self.now.rank result.items }
        ensures few { length result.items ≤ self.now.rank }
    {
        if let Some(found) = by_heights::descents(&self.group, w, Side::Left) {
            return found;
        }
        self.descents_of(&self.reduced_inverse(w))
    }

    /// The letters s with l(ws) < l(w), rising. For example in A 3 the word `12` has the right descents 2.
    pub fn right_descents(&self, w: &Word) -> Word
        requires { IsWord self.now.rank w.now.items }
        ensures descents { result.items ≡ right_descents (integer_matrix self.now) w.now.items }
        ensures word { IsWord self.now.rank result.items }
        ensures few { length result.items ≤ self.now.rank }
    {
        if let Some(found) = by_heights::descents(&self.group, w, Side::Right) {
            return found;
        }
        self.descents_of(&self.reduced_inverse(&self.reduced_inverse(w)))
    }

    /// The normal form of the inverse.
    pub fn inverse(&self, w: &Word) -> Word
        requires { IsWord self.now.rank w.now.items }
        ensures form { result.items ≡ normal_form (integer_matrix self.now) (reverse w.now.items) }
        ensures reduced { IsReduced (integer_matrix self.now) result.items }
        ensures word { IsWord self.now.rank result.items }
        ensures no_longer { length result.items ≤ length w.now.items }
    {
        if let Some(form) = by_heights::normal_form(&self.group, w, Side::Right) {
            return form;
        }
        self.form_of_inverse(self.reduced_inverse(&self.reduced_inverse(w)))
    }

    /// The normal form of the product, for words of at most 255 letters in all.
    pub fn product(&self, x: &Word, y: &Word) -> Word
        requires letters_x { IsWord self.now.rank x.now.items }
        requires letters_y { IsWord self.now.rank y.now.items }
        requires room { length x.now.items + length y.now.items ≤ MAX_LETTERS }
        ensures form { result.items ≡ normal_form (integer_matrix self.now) (x.now.items ++ y.now.items) }
        ensures reduced { IsReduced (integer_matrix self.now) result.items }
        ensures word { IsWord self.now.rank result.items }
        ensures no_longer { length result.items ≤ length x.now.items + length y.now.items }
    {
        self.normal_form(&joined(x, y))
    }

    /// The normal form of the inverse of the element of a reduced word.
    fn form_of_inverse(&self, mut rest: Word) -> Word
        requires letters { IsWord self.now.rank rest.items }
        requires reduced { IsReduced (integer_matrix self.now) rest.items }
        ensures form { result.items ≡ normal_form (integer_matrix self.now) (reverse rest.items) }
        ensures word { IsWord self.now.rank result.items }
        ensures no_longer { length result.items ≤ length rest.items }
    {
        let mut form = Word::new();
        while let Some(s) = self.take_least(&mut rest) {
            form.push(s);
        }
        form
    }

    /// Takes the least right descent of a reduced word out of it, if there is one.
    fn take_least(&self, v: &mut Word) -> Option<u8>
        requires letters { IsWord self.now.rank v.old.items }
        requires reduced { IsReduced (integer_matrix self.now) v.old.items }
        ensures form { MatchOption result (normal_form (integer_matrix self.now) (reverse v.old.items) ≡ [])
            (λ s. normal_form (integer_matrix self.now) (reverse v.old.items)
            ≡ s ∷ normal_form (integer_matrix self.now) (reverse v.new.items)) }
        ensures letter { IfSome result (λ s. IsLetter self.now.rank s) }
        ensures reduced { IsReduced (integer_matrix self.now) v.new.items }
        ensures letters { IsWord self.now.rank v.new.items }
        ensures shorter { IfSome result (λ _. length v.new.items + 1 ≡ length v.old.items) }
    {
        for s in 1..self.group.rank() as u8 + 1 {
            if let Some(place) = self.exchanged(v, s) {
                v.remove(place);
                return Some(s);
            }
        }
        None
    }

    /// The right descents of a reduced word.
    fn descents_of(&self, v: &Word) -> Word
        requires letters { IsWord self.now.rank v.now.items }
        requires reduced { IsReduced (integer_matrix self.now) v.now.items }
        ensures descents { result.items ≡ right_descents (integer_matrix self.now) v.now.items }
        ensures word { IsWord self.now.rank result.items }
        ensures few { length result.items ≤ self.now.rank }
    {
        prove!(self.group.rank() as usize <= MAX_RANK);
        let mut found = Word::new();
        for s in 1..self.group.rank() as u8 + 1 {
            if self.exchanged(v, s).is_some() {
                found.push(s);
            }
        }
        found
    }
}

/// One word and then the other.
fn joined(x: &Word, y: &Word) -> Word
    requires { length x.now.items + length y.now.items ≤ MAX_LETTERS }
    ensures { result.items ≡ x.now.items ++ y.now.items }
{
    let mut word = copy_word(x);
    match word.try_extend_from_slice(y.as_slice()) {
        Ok(()) => word,
        Err(_) => unreachable!(),
    }
}
