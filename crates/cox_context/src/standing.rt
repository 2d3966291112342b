//! Where an element stands in a context.
use cox_base::Word;

/// Where an element stands in a context.
#[derive(Drop)]
pub enum Standing {
    /// It is the member with this number.
    Member(u32),
    /// It is no member. This is its normal form.
    Outside(Word),
}
