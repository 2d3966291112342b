//! The laws of intervals and groups as lists in ShortLex order. The functions do nothing: their clauses are theorems.

ghost use Rattle.std.specs.Prelude.{◌≡◌, ◌⊎◌, ℕ, List};
ghost use Rattle.cox_base.specs.Bruhat.{IsBelow};
ghost use Rattle.cox_base.specs.IntegerMatrix.{integer_matrix};
ghost use Rattle.cox_base.specs.Matrix.{CoxeterMatrix};
ghost use Rattle.cox_base.specs.Admissible.{IsCoxeterMatrix};
ghost use Rattle.cox_base.specs.Members.{IsElement, IsInInterval};
ghost use Rattle.cox_base.specs.SortedList.{IsListOf};
ghost use Rattle.cox_context.specs.TooLarge.{IsTooLarge};
ghost use Rattle.cox_context.specs.Refusal.{IsOver, IsLong};

/// Each w has one list of the elements x with x <= w, and with an element it has those below it.
pub fn intervals()
    ensures exists { (g : CoxeterMatrix) → IsCoxeterMatrix g → (w : List ℕ)
        → (words : List (List ℕ)) × IsListOf (IsInInterval (integer_matrix g) w) words }
    ensures unique { (g : CoxeterMatrix) → IsCoxeterMatrix g → (w : List ℕ) (words others : List (List ℕ))
        → IsListOf (IsInInterval (integer_matrix g) w) words → IsListOf (IsInInterval (integer_matrix g) w) others → words ≡ others }
    ensures downwards { (g : CoxeterMatrix) → IsCoxeterMatrix g → (w x z : List ℕ)
        → IsElement (integer_matrix g) x → IsBelow (integer_matrix g) x z → IsInInterval (integer_matrix g) w z
        → IsInInterval (integer_matrix g) w x }
{}

/// A group is too large for a context exactly where that is found by its first elements in ShortLex order.
pub fn large_groups()
    ensures found { (g : CoxeterMatrix) → IsCoxeterMatrix g → (limit : ℕ) → IsTooLarge (IsElement (integer_matrix g)) limit
        → IsOver (IsElement (integer_matrix g)) limit ⊎ IsLong (IsElement (integer_matrix g)) limit }
    ensures large { (g : CoxeterMatrix) (limit : ℕ)
        → IsOver (IsElement (integer_matrix g)) limit ⊎ IsLong (IsElement (integer_matrix g)) limit
        → IsTooLarge (IsElement (integer_matrix g)) limit }
{}
