//! The rows of a store that is ended.
ghost use Rattle.std.specs.Prelude.{◌≡◌, ◌≢◌, ◌≤◌, [], vec_len, vec_capacity, None, IfSome};
ghost use Rattle.cox_claims.specs.Seats.{view_of};
ghost use Rattle.cox_claims.specs.Tables.{rows_of, IsSeatOf};
ghost use Rattle.cox_fill_core.specs.declared.event.RowState.{RowState};
ghost use Rattle.cox_fill_core.specs.declared.event.RowState.TheVariants.{Published};
ghost use Rattle.cox_rowcell.specs.RowFor.{IsRowFor};
ghost use Rattle.cox_row_store.specs.Taken.{TakesRows};

use cox_claims::{Claims, RowState, Seat};
use cox_row::Row;
use cox_rowcell::RowCell;
use std::sync::Wait;

/// The rows of these cells, one entry for each: its row where a look finds it Published, or none. It would wait for ever at an empty cell
/// of a Published row. There is none: `RowStore::publish` fills the cell first, and publishes the claim by what shows that.
pub(crate) fn take_rows<R: Wait>(
    rt: &R,
    claims: &Claims,
    seat: &mut Seat,
    cells: Vec<RowCell>,
    mut rows: Vec<Option<Row>>,
) -> Vec<Option<Row>>
    requires own { IsSeatOf claims.now seat.old }
    requires cells { vec_len cells ≡ rows_of claims.now }
    requires empty { rows.items ≡ [] }
    requires room { vec_len cells ≤ vec_capacity rows }
    ensures { TakesRows cells.items (view_of seat.old) (view_of seat.new) result.items }
{
    let _rows = claims.rows();
    for cell in cells {
        let state = claims.look(seat, rows.len() as u32);
        rows.push_reserved(take_row(rt, cell, state));
    }
    rows
}

/// The row of a cell that is Published, or none.
fn take_row<R: Wait>(rt: &R, cell: RowCell, state: RowState) -> Option<Row>
    ensures row { IfSome result (IsRowFor cell) }
    ensures there { state ≡ RowState.Published → result ≢ None }
    ensures none { state ≢ RowState.Published → result ≡ None }
{
    if state != RowState::Published {
        return None;
    }
    Some(cell.into_row(rt))
}
