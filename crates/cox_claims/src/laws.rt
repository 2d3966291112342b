//! The laws of the table, each the contract of an empty function.
ghost use Rattle.std.specs.Prelude.{ℕ, ◌<◌};
ghost use Rattle.cox_claims.specs.Events.{StepsAreEvents, ViewsTellWords, StartsFree, HasNoMoreSeats};

/// Whatever the schedule, the words and the views of a table show a good state of the fill core between
/// any two steps, and each step is the event that it is named after, with the reply that its call answers.
/// A split tells the new seat what the old one has seen, and a meeting tells the first seat what the other has.
pub fn steps_are_events()
    ensures { (rows : ℕ) → StepsAreEvents rows }
{}

/// The views of all seats tell each word: a step that does to the views what an event does to them does to
/// the words what the event does, and nothing else.
pub fn views_tell_words()
    ensures { (rows : ℕ) → ViewsTellWords rows }
{}

/// Where the first seat has the view of a newcomer, it is the only seat, and all rows are Free.
pub fn starts_free()
    ensures { (rows : ℕ) → StartsFree rows }
{}

/// A table has no seat beside those that the views of others tell of. So a call that leaves the seats' views as its clauses say
/// has made no seat but the one that it gives back.
pub fn no_more_seats()
    ensures { (rows : ℕ) → HasNoMoreSeats rows }
{}
