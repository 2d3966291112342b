//! The laws of cells, for every admissible integer matrix A. The function does nothing: its clauses are theorems.
ghost use Rattle.std.specs.Prelude.{◌≡◌, ℕ, List};
ghost use Rattle.cox_base.specs.IntegerMatrix.{IntegerMatrix};
ghost use Rattle.cox_base.specs.Admissible.{IsAdmissible};
ghost use Rattle.cox_base.specs.Members.{IsElement};
ghost use Rattle.cox_base.specs.SortedList.{IsListOf};
ghost use Rattle.cox_cells.specs.declared.kind.CellKind.{CellKind};
ghost use Rattle.cox_cells.specs.Cells.{AreCells};

/// A finite group, given by the list of its elements, has exactly one list of cells of each kind.
pub fn cells()
    ensures exists { (A : IntegerMatrix) → IsAdmissible A → (kind : CellKind) (elements : List (List ℕ)) → IsListOf (IsElement A) elements
        → (cells : List (List (List ℕ))) × AreCells kind A cells }
    ensures unique { (A : IntegerMatrix) → IsAdmissible A → (kind : CellKind) (cells others : List (List (List ℕ))) → AreCells kind A cells
        → AreCells kind A others → cells ≡ others }
{}
