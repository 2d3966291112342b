//! An edge, as it is kept at one of its ends.

/// An edge of a W-graph, seen from one of its ends.
#[derive(Clone, Copy, Debug, PartialEq, Eq)]
pub struct Edge {
    /// The number of the vertex at the other end.
    pub to: u32,
    /// The value of the edge: mu(x,y) or mu(y,x) for its ends x and y, whichever is not 0.
    pub value: i32,
}
