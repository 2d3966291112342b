//! The group, or the interval, whose elements a context has as members.
ghost use Rattle.std.specs.Prelude.{◌≡◌};
ghost use Rattle.cox_base.specs.IntegerMatrix.{integer_matrix};
ghost use Rattle.cox_context.specs.WantedMembers.{top_descents};

use cox_base::{Coxeter, Word};

/// A Coxeter group, and the top of an interval where an interval is meant, as a reduced word.
#[derive(Drop)]
pub(crate) struct Scope {
    pub(crate) group: Coxeter,
    pub(crate) top: Option<Word>,
    // the left descents of the top: with x in the interval, s x is in it for each of them
    pub(crate) descents: Word,
    ghost descents_of: { descents.items ≡ top_descents (integer_matrix group) top },
}
