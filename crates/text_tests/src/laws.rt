//! What `==` tells of the values that tests compare: the contract of a function with an empty body.
ghost use Rattle.std.specs.Prelude.{◌≡◌, true};

use cox_outside::{Got, Took};

/// Values of `Got` that `==` tells to be equal are the same, and values of `Took` too.
pub fn equal_values()
    ensures got { (a b : Got) → ⟦<Got as PartialEq>⟧.eq a b ≡ true → a ≡ b }
    ensures took { (a b : Took) → ⟦<Took as PartialEq>⟧.eq a b ≡ true → a ≡ b }
{}
