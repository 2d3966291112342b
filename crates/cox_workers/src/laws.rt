//! The law of families. The function does nothing: its clause is a theorem.

ghost use Rattle.std.specs.Prelude.{ℕ, List};
ghost use Rattle.cox_workers.specs.Families.{NeedsSmaller, GivesRows};

/// If each row that is published is given the step family over the families given to the rows that it needs, then each family given is the
/// row of its element, after any events of the fill core.
pub fn families()
    ensures { (needs : ℕ → List ℕ) → NeedsSmaller needs → GivesRows needs }
{}
