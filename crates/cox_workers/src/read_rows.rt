//! Rows that a worker reads.
ghost use Rattle.std.specs.Prelude.{◌≡◌, ◌≢◌, ℕ, ◌<◌, length, vec_len, IfOk, IfSome, IsSome, ◌↔◌, None, pos, ◌≤ℤ◌};
ghost use Rattle.cox_row.specs.RowOf.{IsRowAt};
ghost use Rattle.cox_row.specs.Within.{IsRowWithin};
ghost use Rattle.cox_rowcell.specs.Guards.{place_of_guard};
ghost use Rattle.cox_row_store.specs.Places.{place_at};
ghost use Rattle.cox_workers.specs.Guarded.{guard_at, AreGuarded};

use cox_context::Context;
use cox_row::{LowerRows, Row};
use cox_row_store::RowGuard;
use std::alloc::{AllocError, Global};
use std::snapshot::Snapshot;

/// Rows of members of a context that a worker reads, each under its member's number, by a guard that it keeps.
#[derive(Drop)]
pub struct ReadRows<'a> {
    context: Snapshot<Context>,
    limit: i64,
    guards: Vec<Option<RowGuard<'a>>>,
    ghost least: { pos 0 ≤ℤ limit },
    ghost a_place_each: { vec_len guards ≡ length context.value.members },
    ghost guarded: { AreGuarded context.value limit guards.items },
}

impl<'a> ReadRows<'a> {
    ghost use Rattle.cox_workers.specs.RowsRead.{IsRead, AreReadRows};

    /// No rows yet of the members of a context.
    pub fn new(alloc: Global, context: &Context, limit: i64) -> Result<ReadRows<'a>, AllocError>
        requires { pos 0 ≤ℤ limit }
        ensures of { IfOk result (AreReadRows context.now limit) }
        ensures empty { IfOk result (λ rows. (i : ℕ) → ¬ IsRead rows i) }
    {
        Ok(ReadRows {
            context: Snapshot::of(context),
            limit,
            guards: no_guards(alloc, context.len())?,
        })
    }

    /// Puts the row of a member beside those that are read.
    pub fn put(&mut self, member: u32, guard: RowGuard<'a>)
        requires member { member < length self.old.context.value.members }
        requires place { place_of_guard guard ≡ place_at self.old.context.value self.old.limit member }
        ensures of { AreReadRows self.old.context.value self.old.limit self.new }
        ensures there { IsRead self.new member }
        ensures kept { (i : ℕ) → IsRead self.old i → IsRead self.new i }
        ensures others { (i : ℕ) → i ≢ member → IsRead self.new i → IsRead self.old i }
    {
        self.guards[member as usize] = Some(guard);
    }

    /// The neighbour at a place of the row of a member, if that row is read and has so many.
    pub(crate) fn neighbour(&self, member: u32, place: usize) -> Option<u32>
        ensures { IfSome result (λ u. u < length self.now.context.value.members) }
    {
        let row = self.get(member)?;
        row.neighbours().get(place).copied()
    }

    /// The row of a member, if it is read.
    pub fn get(&self, member: u32) -> Option<&Row>
        ensures row { IfSome result (λ row. IsRowAt self.now.context.value member row.now × IsRowWithin self.now.limit row.now) }
        ensures exactly { IsSome result ↔ IsRead self.now member }
    {
        match self.guards.get(member as usize) {
            Some(Some(guard)) => Some(guard.row()),
            _ => None,
        }
    }
}

/// No guard for each of so many members.
fn no_guards<'a>(alloc: Global, members: u32) -> Result<Vec<Option<RowGuard<'a>>>, AllocError>
    ensures count { IfOk result (λ guards. vec_len guards ≡ members) }
    ensures none { IfOk result (λ guards. (i : ℕ) → guard_at guards.items i ≡ None) }
{
    let mut guards = Vec::with_capacity(alloc, members as usize)?;
    for _ in 0..members {
        guards.push_reserved(None);
    }
    Ok(guards)
}

impl<'a> LowerRows for ReadRows<'a> {
    ghost use Rattle.cox_workers.specs.RowsRead.{IsRead};

    ghost elements = { λ rows. rows.context.value };

    ghost holds = { λ rows i. IsRead rows i };

    ghost limit = { λ rows. rows.limit };

    fn limit(&self) -> i64 {
        self.limit
    }

    fn has(&self, i: u32) -> bool {
        self.get(i).is_some()
    }

    fn row(&self, i: u32) -> &Row {
        match self.get(i) {
            Some(row) => row,
            None => unreachable!(),
        }
    }
}
