//! What the row of a member begins with: the row itself, or a plan, so that threads may find polynomials before it is made.
use crate::step::Step;
use cox_row::Row;

/// What the row of a member begins with.
#[derive(Drop)]
pub enum RowStart<'a> {
    /// The row, which was made at once: that of the identity, or one that shares the polynomials of another.
    Done(Row),
    /// How it is to be made.
    Planned(RowPlan<'a>),
}

/// A row that is to be made by a step. The tables of the context are laid out for it.
#[derive(Drop)]
pub struct RowPlan<'a> {
    pub(crate) step: Step,
    /// The row of the shorter element.
    pub(crate) lower: &'a Row,
    /// The rows of the corrections, in their order.
    pub(crate) needed: Vec<&'a Row>,
    /// How large a coefficient may be in absolute value.
    pub(crate) limit: i64,
}
