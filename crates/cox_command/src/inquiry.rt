//! Inquiries: commands on elements, and on the whole group.

use cox_base::Word;

/// A command on elements of the group that is set, or on the whole group.
#[derive(Drop)]
pub enum Inquiry {
    /// A command with one word.
    One(OneWord, Word),
    /// A command with two words.
    Two(TwoWord, Word, Word),
    /// A command without arguments, on the whole group.
    Plain(NoWord),
    /// `work`: sums over the Kazhdan-Lusztig polynomials of words that are generated.
    Work {
        /// The generator's state before the first word, from 0 to `MAX_START`.
        start: u32,
        /// How many words, from 1 to `MAX_COUNT`.
        count: u32,
    },
}

/// The commands with one word.
#[derive(Clone, Copy, Debug, Eq, PartialEq)]
pub enum OneWord {
    /// The element.
    Compute,
    /// Its length.
    Length,
    /// The inverse element.
    Inverse,
    /// Its left and right descents.
    Descent,
    /// The elements that it covers in Bruhat order.
    Coatoms,
    /// How many elements of each length are below it.
    Betti,
    /// What its row of Kazhdan-Lusztig polynomials answers.
    OfRow(RowKind),
    /// The certificate of its row: the group, its normal form, and all x below it in Bruhat order, each with P(x,w).
    Cert,
    /// The module of the Hecke algebra that its left cell carries.
    Module,
}

/// The commands with one word w that the row of w answers: the polynomials P(x,w) of all x below w in Bruhat order.
#[derive(Clone, Copy, Debug, Eq, PartialEq)]
pub enum RowKind {
    /// P(x,w) of each x below w.
    Klbasis,
    /// The coefficients of the sum of q^l(x) P(x,w) over all x below w.
    Ihbetti,
    /// P(x,w) of those x below w that have each left and each right descent of w.
    Extremals,
}

/// The commands with two words.
#[derive(Clone, Copy, Debug, Eq, PartialEq)]
pub enum TwoWord {
    /// Whether the first is below the second in Bruhat order.
    Inorder,
    /// The elements between them in Bruhat order.
    Interval,
    /// Their R-polynomial.
    Rpol,
    /// What the row of the second answers, by its entry at the first.
    OfEntry(EntryKind),
    /// Their inverse Kazhdan-Lusztig polynomial Q(y,w).
    Invpol,
}

/// The commands with two words y and w that the row of w answers, by its entry at y.
#[derive(Clone, Copy, Debug, Eq, PartialEq)]
pub enum EntryKind {
    /// Their Kazhdan-Lusztig polynomial P(y,w).
    Pol,
    /// mu(y,w): the coefficient of P(y,w) at the degree (l(w) - l(y) - 1) / 2, if y is below w and that is whole.
    Mu,
}

/// The commands without arguments, on the whole group.
#[derive(Clone, Copy, Debug, Eq, PartialEq)]
pub enum NoWord {
    /// The left W-graph: each element with its left descents, and its edges with their values of mu.
    Lwgraph,
    /// The right W-graph, with right descents.
    Rwgraph,
    /// The left cells.
    Lcells,
    /// The right cells.
    Rcells,
    /// The two-sided cells.
    Lrcells,
}
