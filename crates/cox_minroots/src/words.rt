//! A table as an arithmetic of words.

use crate::RootTable;
use cox_base::{Coxeter, MAX_LETTERS, Word};
use cox_reflect::Words;

/// Words of all lengths that a word may have.
impl Words for RootTable {
    ghost use Rattle.cox_base.specs.declared.limits.TheConstants.{MAX_LETTERS};

    ghost matrix = { λ g. g };

    ghost longest = { λ _. MAX_LETTERS };

    fn matrix(&self) -> &Coxeter {
        self.group()
    }

    fn longest(&self) -> u32 {
        MAX_LETTERS as u32
    }

    fn normal_form(&self, w: &Word) -> Word {
        self.normal_form(w)
    }

    fn left_descents(&self, w: &Word) -> Word {
        self.left_descents(w)
    }

    fn below(&self, y: &Word, w: &Word) -> bool {
        self.below(y, w)
    }
}
