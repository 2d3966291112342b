//! The seat of a thread at a table.
ghost use Rattle.std.specs.Prelude.{◌≡◌, false, []};

use crate::view::View;

/// A seat at a table of claims, through which a thread works. It may go to another thread.
/// What it knows takes no bytes: contracts see it as a `View`. It counts how often it was split.
#[derive(Drop)]
pub struct Seat {
    pub(crate) seat: atomic_table::Seat<(), View>,
    pub(crate) splits: u64,
    ghost bare: { seat.me.1 ≡ [] },
    ghost live: { seat.me.0.spent ≡ false },
}

impl Seat {
    ghost use Rattle.cox_claims.specs.Seats.{splits_of};

    /// How often this seat, or one that it came from, was split.
    pub fn splits(&self) -> u64
        ensures { result ≡ splits_of self.now }
    {
        self.splits
    }
}
