//! Rows that are at hand, by number.
ghost use Rattle.std.specs.Prelude.{◌≡◌, ℕ, ◌<◌, ◌↔◌, length, IsTrue, ℤ, pos, ◌≤ℤ◌};
ghost use Rattle.cox_context.specs.Closed.{Elements};
ghost use Rattle.cox_row.specs.RowOf.{IsRowAt};
ghost use Rattle.cox_row.specs.Within.{IsRowWithin};

use crate::Row;

/// Rows of members of a context, each under its member's number. Some are there; each of these is within the limits.
pub trait LowerRows {
    /// The Coxeter matrix and the members of the context.
    ghost elements: { Self → Elements };

    /// Which rows are there, by number.
    ghost holds: { Self → ℕ → Type 0 };

    /// The greatest absolute value that a coefficient may have.
    ghost limit: { Self → ℤ };

    /// The greatest absolute value that a coefficient may have.
    fn limit(&self) -> i64
        ensures limit { result ≡ limit self.now }
        ensures least { pos 0 ≤ℤ limit self.now };

    /// Whether the row of the member with the number i is there.
    fn has(&self, i: u32) -> bool
        requires { i < length (elements self.now).members }
        ensures { IsTrue result ↔ holds self.now i };

    /// The row of the member with the number i, which is there.
    fn row(&self, i: u32) -> &Row
        requires member { i < length (elements self.now).members }
        requires there { holds self.now i }
        ensures row { IsRowAt (elements self.now) i result.now }
        ensures within { IsRowWithin (limit self.now) result.now };
}
