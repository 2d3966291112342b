//! What row a cell is for.
use cox_context::Context;
use std::marker::Model;
use std::snapshot::Snapshot;

/// What row a cell is for. Contracts see the context's elements, the member's number and the limit; of the context no byte is kept.
#[derive(Drop)]
pub struct Tag {
    context: Snapshot<Context>,
    member: u32,
    limit: i64,
}

impl Model for Tag {
    ghost use Rattle.cox_rowcell.specs.Place.{Place};

    ghost Value = { Place };

    ghost view = { λ t. record { elements = t.context.value; member = t.member; limit = t.limit } };
}

impl Tag {
    ghost use Rattle.std.specs.Prelude.{◌≡◌};

    /// The row of this member of the context, whose coefficients are within the limit.
    pub fn new(context: &Context, member: u32, limit: i64) -> Tag
        ensures elements { result.elements ≡ context.now }
        ensures member { result.member ≡ member }
        ensures limit { result.limit ≡ limit }
    {
        Tag {
            context: Snapshot::of(context),
            member,
            limit,
        }
    }
}
