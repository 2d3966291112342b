//! The kinds of cells.

/// Which descents count at a step.
#[derive(Clone, Copy, Debug, Eq, PartialEq)]
pub enum CellKind {
    /// Left descents: left cells.
    Left,
    /// Right descents: right cells.
    Right,
    /// At each step those of one side or of the other.
    Both,
}
