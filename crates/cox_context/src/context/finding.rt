//! The number of the element that a word or a normal form names.
ghost use Rattle.std.specs.Prelude.{◌≡◌};
ghost use Rattle.cox_base.specs.Matrix.{IsWord};
ghost use Rattle.cox_base.specs.IntegerMatrix.{integer_matrix};
ghost use Rattle.cox_base.specs.ShortLex.{normal_form};
ghost use Rattle.cox_context.specs.Numbering.{IsNumberOf};
ghost use Rattle.cox_context.specs.Standings.{IsStandingOf};

use crate::context::Context;
use crate::standing::Standing;
use cox_base::Word;
use cox_minroots::RootTable;

impl Context {
    /// Where the element that a word names stands: its number, or its normal form where it is no member. In A 2, with the identity and `1`
    /// as members, `212` is outside, and its normal form is `121`.
    ///
    /// By right shifts, letter by letter, and by the normal form where one of these leads to no member.
    pub fn look_up(&self, group: &RootTable, word: &Word) -> Standing
        requires matrix { group.now ≡ self.now.matrix }
        requires letters { IsWord group.now.rank word.now.items }
        ensures { IsStandingOf self.now.members (normal_form (integer_matrix group.now) word.now.items) result }
    {
        prove!(self.len() > 0);
        let letters = word.as_slice();
        let mut at = 0;
        for &s in letters {
            let Some(longer) = self.right(s, at) else {
                return self.look_up_by_form(group, word);
            };
            at = longer;
        }
        Standing::Member(at)
    }

    /// The same by the normal form.
    #[cold]
    fn look_up_by_form(&self, group: &RootTable, word: &Word) -> Standing
        requires matrix { group.now ≡ self.now.matrix }
        requires letters { IsWord group.now.rank word.now.items }
        ensures { IsStandingOf self.now.members (normal_form (integer_matrix group.now) word.now.items) result }
    {
        let form = group.normal_form(word);
        match self.number(&form) {
            Some(i) => Standing::Member(i),
            None => Standing::Outside(form),
        }
    }

    /// The number of the element that a word names; `None` exactly where it is no member. In A 2, with all six elements as members, that of
    /// `12121` is 2.
    pub fn number_of(&self, group: &RootTable, word: &Word) -> Option<u32>
        requires matrix { group.now ≡ self.now.matrix }
        requires letters { IsWord group.now.rank word.now.items }
        ensures { IsNumberOf self.now.members (normal_form (integer_matrix group.now) word.now.items) result }
    {
        match self.look_up(group, word) {
            Standing::Member(i) => Some(i),
            Standing::Outside(_) => None,
        }
    }

    /// The number of a member by its normal form; `None` exactly where the word is not the normal form of a member.
    ///
    /// By left shifts from the last letter of the word to the first: each is to lead to the member that begins with that letter.
    pub(super) fn number(&self, word: &Word) -> Option<u32>
        ensures { IsNumberOf self.now.members word.now.items result }
    {
        prove!(self.len() > 0);
        let rank = self.matrix().rank();
        let letters = word.as_slice();
        let mut at = 0;
        for done in 0..letters.len() {
            let s = letters[letters.len() - 1 - done];
            if s == 0 || s as u32 > rank {
                return None;
            }
            let longer = self.left(s, at)?;
            if longer <= at {
                return None;
            }
            if self.link(longer).first != s {
                return None;
            }
            at = longer;
        }
        Some(at)
    }
}
