//! Gates that workers pass.
use std::sync::Wait;

/// Where a worker stands when it passes a gate.
#[derive(Clone, Copy, Debug, PartialEq, Eq)]
pub enum Point {
    /// Before it claims a row.
    Claim,
    /// Before it publishes a row.
    Publish,
    /// Before the block of a list with this number begins.
    Block,
}

/// A gate that each worker passes before each claim and each publication, and before each block of a list.
///
/// The thread that answers the block with the number k passes under the number k, from 1, with row 0, before it begins the block.
///
/// A gate has no meaning, and no answer depends on it. A test's gate may hold a worker for a time.
pub trait Gate {
    /// The worker with this number, from 1, passes before it claims or publishes this row, or begins the block with that number.
    fn pass<R: Wait>(&self, rt: &R, worker: u32, point: Point, row: u32);
}

/// The gate that holds nobody: it is given no leave to wait.
#[derive(Clone, Copy, Debug, Drop)]
pub struct Open;

impl Gate for Open {
    fn pass<R>(&self, rt: &R, worker: u32, point: Point, row: u32) {
        let _ = rt;
        let _ = worker;
        let _ = point;
        let _ = row;
    }
}
