//! The laws of the modules of left cells. Each function does nothing: its clauses are theorems.
ghost use Rattle.std.specs.Prelude.{◌≡◌, ℕ, List, length, true};
ghost use Rattle.cox_base.specs.Matrix.{CoxeterMatrix};
ghost use Rattle.cox_base.specs.Admissible.{IsAdmissible, IsCoxeterMatrix};
ghost use Rattle.cox_base.specs.IntegerMatrix.{IntegerMatrix, integer_matrix};
ghost use Rattle.cox_base.specs.Members.{IsElement};
ghost use Rattle.cox_base.specs.SortedList.{IsRising, IsListOf};
ghost use Rattle.cox_cells.specs.declared.kind.CellKind.TheVariants.{Left};
ghost use Rattle.cox_cells.specs.Cells.{IsCell};
ghost use Rattle.cox_module.specs.Images.{IsImage, AreImages};
ghost use Rattle.cox_module.specs.Relations.{MeetRelations};

use crate::term::{Entry, Term};

/// Each element of a left cell has exactly one image under each letter.
pub fn images()
    ensures exists { (A : IntegerMatrix) → IsAdmissible A → (cell : List (List ℕ)) → IsRising cell → (s k : ℕ)
        → (image : List Term) × IsImage A cell s k image }
    ensures unique { (A : IntegerMatrix) → IsAdmissible A → (cell : List (List ℕ)) → IsRising cell → (s k : ℕ)
        → (image other : List Term) → IsImage A cell s k image → IsImage A cell s k other → image ≡ other }
{}

/// The images of the elements of a left cell of a finite group give a module of the Hecke algebra: the operators meet the quadratic
/// relations and the braid relations, on the free module over the polynomials in v = q^(1/2) (Kazhdan and Lusztig 1979, theorem 1.3).
pub fn relations()
    ensures { (c : CoxeterMatrix) → IsCoxeterMatrix c → (members : List (List ℕ)) → IsListOf (IsElement (integer_matrix c)) members
        → (cell : List (List ℕ)) → IsCell Left (integer_matrix c) cell → (images : ℕ → ℕ → List Term)
        → AreImages (integer_matrix c) cell images → MeetRelations c (length cell) images }
{}

/// Entries that `==` tells to be equal are the same, and terms too.
pub fn entries()
    ensures entries { (a b : Entry) → ⟦<Entry as PartialEq>⟧.eq a b ≡ true → a ≡ b }
    ensures terms { (a b : Term) → ⟦<Term as PartialEq>⟧.eq a b ≡ true → a ≡ b }
{}
