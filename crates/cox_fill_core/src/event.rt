//! The states of a row, the events, and the replies.
/// What is known of a row of the store.
#[derive(Clone, Copy, Debug, PartialEq, Eq)]
pub enum RowState {
    /// Nobody has claimed the row.
    Free,
    /// One actor, and only one, has claimed the row and holds it.
    Claimed,
    /// The row is there for good.
    Published,
    /// The actor that had claimed the row gave it up for good.
    Void,
}

/// What an actor does: the actor, and the row. Actors and rows are numbers from 0.
#[derive(Clone, Copy, Debug, PartialEq, Eq)]
pub enum Event {
    /// The actor claims the row.
    Claim(u32, u32),
    /// The actor looks at the row.
    Look(u32, u32),
    /// The actor publishes the row.
    Publish(u32, u32),
    /// The actor gives up the row.
    Void(u32, u32),
    /// The first actor tells the second which rows it has seen Published.
    Tell(u32, u32),
}

/// What an actor is told about its event.
#[derive(Clone, Copy, Debug, PartialEq, Eq)]
pub enum Reply {
    /// The row was Free, and the actor holds it now.
    Won,
    /// The row was not Free, but in this state.
    Lost(RowState),
    /// The state of the row.
    Seen(RowState),
    /// The row is Published.
    Made,
    /// The least row that is needed and that the actor has not seen Published.
    Missing(u32),
    /// The row is Void.
    Voided,
    /// The actor does not hold the row.
    NotYours,
    /// The second actor has seen what the first had.
    Told,
}
