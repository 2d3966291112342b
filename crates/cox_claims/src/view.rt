//! What a seat knows.
use cox_fill_core::RowState;
use std::collections::LinkedList;

/// What a seat knows, and what it did. No value of this type is ever made: views exist in proofs alone.
pub struct View {
    /// The rows that it holds by a claim.
    pub held: LinkedList<u32>,
    /// The rows that it has seen Published.
    pub published: LinkedList<u32>,
    /// The rows that it has seen Void.
    pub voids: LinkedList<u32>,
    /// The rows that it has seen Claimed, by another seat.
    pub claimed: LinkedList<u32>,
    /// The rows that it voided itself.
    pub marks: LinkedList<u32>,
    /// The row and the state of its last look or lost claim.
    pub last: Option<(u32, RowState)>,
    /// How many looks and lost claims there were.
    pub reads: u64,
    /// The rows that it published, or that a seat that it met did.
    pub made: LinkedList<u32>,
    /// The rows that it voided, or that a seat that it met did.
    pub given_up: LinkedList<u32>,
    /// Its generation: 0 for the first seat, and else one more than that of the seat that it was split from.
    pub generation: u64,
    /// The generations of the seats that were split from it, or from a seat that it met.
    pub children: LinkedList<u64>,
    /// The generations of the seats that it met, or that one of these met.
    pub met: LinkedList<u64>,
    /// Whether the seat met another and is gone, or was never made.
    pub spent: bool,
}
