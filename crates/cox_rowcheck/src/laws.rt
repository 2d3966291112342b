//! The laws behind the check of a row. Each function does nothing: its clauses are theorems.
ghost use Rattle.std.specs.Prelude.{◌≡◌, ◌↔◌, ℕ, ◌<◌, List, length, ℤ};
ghost use Rattle.cox_base.specs.IntegerMatrix.{IntegerMatrix};
ghost use Rattle.cox_base.specs.Admissible.{IsAdmissible};
ghost use Rattle.cox_base.specs.Members.{IsInInterval};
ghost use Rattle.cox_base.specs.SortedList.{IsListOf};
ghost use Rattle.cox_poly.specs.Polynomial.{SameCoefficients};
ghost use Rattle.cox_rpoly.specs.Terms.{numbered};
ghost use Rattle.cox_rowcheck.specs.ListedRows.{AreRow};
ghost use Rattle.cox_rowcheck.specs.MemberFamily.{family_of};
ghost use Rattle.cox_rowcheck.specs.OneList.{IsBalanced};

/// Polynomials at the elements x <= w are the row of w exactly where the conditions hold with sums over these elements; and no other
/// polynomials are.
pub fn rows()
    ensures conditions { (A : IntegerMatrix) → IsAdmissible A → (w : List ℕ) (words : List (List ℕ)) (polynomials : List (List ℤ))
        → IsListOf (IsInInterval A w) words → length polynomials ≡ length words
        → AreRow A w words polynomials ↔ IsBalanced A w (family_of A words polynomials) words }
    ensures unique { (A : IntegerMatrix) → IsAdmissible A → (w : List ℕ) (words : List (List ℕ)) (polynomials others : List (List ℤ))
        → AreRow A w words polynomials → AreRow A w words others
        → (i : ℕ) → i < length words → SameCoefficients (numbered polynomials i) (numbered others i) }
{}
