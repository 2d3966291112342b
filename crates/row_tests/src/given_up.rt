//! A row that a worker gave up, and that one thread makes afterwards.
ghost use Rattle.std.specs.Prelude.{◌≡◌, length, IfOk, OnOk};
ghost use Rattle.cox_claims.specs.Seats.{HoldsNothing};
ghost use Rattle.cox_claims.specs.declared.view.View.{View};
ghost use Rattle.cox_row_store.specs.Stores.{elements_of, IsSeat};
ghost use Rattle.cox_row_store.specs.Taken.{AreTaken};

use crate::fixtures::elements;
use cox_context::Context;
use cox_doubles::Census;
use cox_row::Row;
use cox_row_store::{Claimed, RowState, RowStore, Seat};
use cox_rows::Rows;
use cox_workers::{Missing, WorkerContext, WorkerScratch, all_members, fill};
use std::alloc::Global;
use std::process::Abort;
use std::sync::Wait;
use std::test::Fail;
use std::thread::Threads;

/// The greatest coefficient.
const LIMIT: i64 = 2_147_483_647;

/// In A 3 the row of `2132`, the member 18, needs that of `2`, the member 2.
#[test]
fn makes_a_row_that_was_given_up(rt: HostRuntime) -> Result<(), Fail> {
    let context = elements(&rt, rt.alloc(), b'A', 3, 24)?;
    let made = rows_but_some(&rt, rt.alloc(), &context)?;
    let mut rows = Rows::new(rt.alloc(), context, LIMIT)?;
    rows.adopt(made);
    complete(&rt, &mut rows)
}

/// The rows that two workers make of all members, where some were given up before. Workers pass the gate before they claim a row, also one
/// that they give up, so in the end all 24 are counted.
fn rows_but_some<R: Abort + Threads + Wait + Sync>(
    rt: &R,
    alloc: Global,
    context: &Context,
) -> Result<Vec<Option<Row>>, Fail>
    requires members { length context.now.members ≡ 24 }
    ensures rows { IfOk result (λ made. (view : View) × AreTaken context.now LIMIT view made.items) }
{
    let (store, mut seat) = RowStore::new(alloc, context, LIMIT)?;
    let gate = Census::new(alloc, 1, 24)?;
    let all = all_members(alloc, context)?;
    give_up(rt, alloc, context, &store, &mut seat, &gate)?;
    let seat = fill(rt, alloc, context, &store, seat, &all, 2, &gate);
    assert!(rt; gate.claimed() == 24);
    Ok(store.into_rows(rt, seat))
}

/// Gives up the row of `2`. A worker that then wants that of `2132` gives it up too. It comes to claim the rows of `2132`, `132`, `32` and
/// `2`, each by the least left descent of the one before, and publishes none.
fn give_up<R: Abort + Threads + Wait + Sync>(
    rt: &R,
    alloc: Global,
    context: &Context,
    store: &RowStore,
    seat: &mut Seat,
    gate: &Census,
) -> Result<(), Fail>
    requires same { elements_of store.now ≡ context.now }
    requires own { IsSeat store.now seat.old }
    requires idle { HoldsNothing seat.old }
    requires members { length context.now.members ≡ 24 }
    ensures own { OnOk result (IsSeat store.now seat.new) }
    ensures idle { OnOk result (HoldsNothing seat.new) }
{
    assert_eq!(rt; store.claim(seat, 2), Claimed::Won);
    store.void(seat, 2);
    let worker = WorkerContext::new(alloc, context, store, 1);
    let mut scratch = WorkerScratch::new(&worker, seat)?;
    assert_eq!(rt;
        worker.ensure(rt, gate, seat, &mut scratch, 18),
        Err(Missing::Void(2))
    );
    drop(scratch);
    assert_eq!(rt; store.look(seat, 18), RowState::Void);
    assert_eq!(rt; (gate.claimed(), gate.published()), (4, (0, 0)));
    Ok(())
}

/// Makes the row of `2132` from rows of which some were given up: the polynomial of `2` and `2132` is 1 + q. What rows are
/// there is noted before, by `settle_held`.
fn complete(rt: &impl Abort, rows: &mut Rows) -> Result<(), Fail>
    requires { length rows.old.elements.members ≡ 24 }
{
    assert!(rt; rows.has(0) && !rows.has(2) && !rows.has(18));
    rows.settle_held();
    for i in 0..24 {
        assert_eq!(rt; rows.is_settled(i), rows.has(i));
    }
    assert_eq!(rt; rows.ensure(18), Ok(()));
    let Some(found) = rows.polynomial(18, 2) else {
        panic!(rt; "2 is below 2132");
    };
    assert_eq!(rt; found.degree(), Some(1));
    assert_eq!(rt; (found.coefficient(0), found.coefficient(1)), (1, 1));
    Ok(())
}
