//! What `==` tells of the values that tests compare: the contract of a function with an empty body.
ghost use Rattle.std.specs.Prelude.{◌≡◌, true};

use cox_claims::Claimed;
use cox_fill_core::{Reply, RowState};
use cox_workers::Missing;

/// Values of one of these types that `==` tells to be equal are the same.
pub fn equal_values()
    ensures states { (a b : RowState) → ⟦<RowState as PartialEq>⟧.eq a b ≡ true → a ≡ b }
    ensures replies { (a b : Reply) → ⟦<Reply as PartialEq>⟧.eq a b ≡ true → a ≡ b }
    ensures claims { (a b : Claimed) → ⟦<Claimed as PartialEq>⟧.eq a b ≡ true → a ≡ b }
    ensures missing { (a b : Missing) → ⟦<Missing as PartialEq>⟧.eq a b ≡ true → a ≡ b }
{}
