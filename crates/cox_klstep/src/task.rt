//! What the row of a member is made from.
use crate::lowering::Lowered;
use crate::sums::Source;
use cox_context::Context;

/// A row that is to be made.
#[derive(Clone, Copy)]
pub struct RowTask<'a> {
    pub(crate) ctx: &'a Context,
    /// The number of the member.
    pub(crate) member: u32,
    /// What its polynomials come from.
    pub(crate) source: &'a Source<'a>,
    /// The extremal members below it.
    pub(crate) lowered: &'a Lowered,
    /// How large a coefficient may be in absolute value.
    pub(crate) limit: i64,
}
