//! The laws of limits. Each function does nothing: its clause is a theorem.

ghost use Rattle.std.specs.Prelude.{ℕ, Bool, List, ◌⊎◌, ◌↔◌, ℤ, pos, ◌≤ℤ◌};
ghost use Rattle.cox_base.specs.Matrix.{IsWord};
ghost use Rattle.cox_base.specs.IntegerMatrix.{IntegerMatrix};
ghost use Rattle.cox_base.specs.Admissible.{IsAdmissible};
ghost use Rattle.cox_symmetry.specs.Symmetry.{IsSymmetry};
ghost use Rattle.cox_symmetry.specs.Turns.{turn};
ghost use Rattle.cox_rows.specs.Beyond.{IsBeyond, NeedsBeyond};

/// Whether Need(w) has an element whose row is beyond the limits can be told.
pub fn needs_beyond()
    ensures { (A : IntegerMatrix) → IsAdmissible A → (limit : ℤ) → pos 0 ≤ℤ limit → (w : List ℕ)
        → NeedsBeyond A limit w ⊎ (NeedsBeyond A limit w → ⊥) }
{}

/// For a symmetry p, with inversion or without, the row of w is beyond the limits exactly where that of p(w), or of its inverse, is. So a
/// row that shares the polynomials of another's is beyond them exactly where that one is.
pub fn beyond_turned()
    ensures { (A : IntegerMatrix) → IsAdmissible A → (p : ℕ → ℕ) → IsSymmetry A p → (inverted : Bool) (limit : ℤ) (w : List ℕ)
        → IsWord A.rank w → IsBeyond A limit (turn p inverted w) ↔ IsBeyond A limit w }
{}
