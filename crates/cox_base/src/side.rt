//! Left and right.

/// The side from which a letter is multiplied.
#[derive(Clone, Copy, Debug, Eq, PartialEq)]
pub enum Side {
    /// From the left: `s w`.
    Left,
    /// From the right: `w s`.
    Right,
}
