//! What `==` tells of the values that tests compare: the contract of a function with an empty body.
ghost use Rattle.std.specs.Prelude.{◌≡◌, true};

use cox_polyread::TextFault;

/// Faults that `==` tells to be equal are the same.
pub fn equal_values()
    ensures { (a b : TextFault) → ⟦<TextFault as PartialEq>⟧.eq a b ≡ true → a ≡ b }
{}
