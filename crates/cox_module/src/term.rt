//! A term of an image: a place, and the entry of a matrix.

/// An entry that is not 0, as a polynomial in v = q^(1/2).
#[derive(Clone, Copy, Debug, Eq, PartialEq)]
pub enum Entry {
    /// -1
    Minus,
    /// v^2
    Square,
    /// A multiple of v, not 0.
    Half(i64),
}

/// A multiple of a basis element.
#[derive(Clone, Copy, Debug, Eq, PartialEq)]
pub struct Term {
    /// The place of the basis element in the cell, from 0.
    pub place: u32,
    /// Its coefficient.
    pub entry: Entry,
}
