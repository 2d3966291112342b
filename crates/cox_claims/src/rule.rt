//! The rule of the table, and what each step may do under it.
ghost use Rattle.cox_claims.specs.Knowledge.{newcomer, nothing, parted, told, joined};
ghost use Rattle.cox_claims.specs.Plays.{TellsLook, TellsClaim, TellsPublish, TellsVoid};
ghost use Rattle.cox_claims.specs.Rule.{KeepsRule};

use crate::view::View;
use atomic_table::{Join, Play, Split, TableRule};

/// The rule of a table with as many rows as its key says.
pub struct Rule;

impl TableRule<(), View, u32> for Rule {
    ghost holds = { KeepsRule };

    ghost first = { λ _. newcomer };
}

/// A look: the seat is told the state of the row.
pub struct LookPlay;

impl Play<(), View> for LookPlay {
    ghost then = { TellsLook };
}

/// A claim: won where the row is Free, which the seat then holds; else the seat is told its state.
pub struct ClaimPlay;

impl Play<(), View> for ClaimPlay {
    ghost then = { TellsClaim };
}

/// The seat publishes a row that it holds.
pub struct PublishPlay;

impl Play<(), View> for PublishPlay {
    ghost then = { TellsPublish };
}

/// The seat gives up a row that it holds: the row is Void.
pub struct VoidPlay;

impl Play<(), View> for VoidPlay {
    ghost then = { TellsVoid };
}

/// One seat becomes two: the new one has seen what the old one had, which counts it.
pub struct Parting;

impl Split<View> for Parting {
    ghost left = { parted };

    ghost right = { told };
}

/// Two seats become one, which has seen what both had and did what both did.
pub struct Meeting;

impl Join<View> for Meeting {
    ghost both = { joined };

    ghost spent = { nothing };
}
