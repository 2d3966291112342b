//! The laws of every list of events from the opening: each is the contract of an empty function.
//!
//! `needs` gives the rows that each row needs. It may be any function, and actors and rows may be any numbers.
ghost use Rattle.std.specs.Prelude.{ℕ, List};
ghost use Rattle.cox_fill_core.specs.Laws.{KeepsGood, StaysGood, MissesLeast, IsWonOnce, IsMadeByWinner, IsPublishedForGood, IsVoidForGood};
ghost use Rattle.cox_fill_core.specs.Laws.{SeenStays};

/// The opening is good, each event keeps a good core good, and so every core that events lead to is good:
/// a Claimed row is held by one actor and only one, no other row is held, a row that an actor has seen
/// Published is so, and so are the rows that a Published row needs.
pub fn stays_good()
    ensures each_event { (needs : ℕ → List ℕ) → KeepsGood needs }
    ensures all_events { (needs : ℕ → List ℕ) → StaysGood needs }
{}

/// A row is won at most once: after the claim that won it the row is never Free, and each later claim is lost.
pub fn won_once()
    ensures { (needs : ℕ → List ℕ) → IsWonOnce needs }
{}

/// A row is made only for the actor that won it and did not void it, and that had seen all rows that it
/// needs, each made before.
pub fn made_by_winner()
    ensures { (needs : ℕ → List ℕ) → IsMadeByWinner needs }
{}

/// A publication that is refused for a missing row names the least one that is needed and not seen.
pub fn misses_least()
    ensures { (needs : ℕ → List ℕ) → MissesLeast needs }
{}

/// Once made, a row is Published for good, and each later reply on it says so or says that it is not the actor's.
pub fn published_for_good()
    ensures { (needs : ℕ → List ℕ) → IsPublishedForGood needs }
{}

/// Once voided, a row is Void for good.
pub fn void_for_good()
    ensures { (needs : ℕ → List ℕ) → IsVoidForGood needs }
{}

/// An actor that has seen a row Published never sees another state of it.
pub fn seen_stays()
    ensures { (needs : ℕ → List ℕ) → SeenStays needs }
{}
