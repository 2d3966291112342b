//! The steps between the members of a context, as a directed graph.
//!
//! The row of a member has its edges to the members before it. At each of them there may be a step either way.
ghost use Rattle.std.specs.Prelude.{◌≡◌, ℕ, ◌+◌, ◌<◌, ◌↔◌, length, IfOk, OnOk, IsTrue};
ghost use Rattle.cox_base.specs.IntegerMatrix.{integer_matrix};
ghost use Rattle.cox_context.specs.Numbers.{word_at};
ghost use Rattle.cox_scc.specs.Graph.{vertices_of, edges_of};
ghost use Rattle.cox_cells.specs.NeighbourLists.{HasNeighbours};
ghost use Rattle.cox_cells.specs.NumberedCells.{AreSteps, AreDescents, HasOwnLetter};

use crate::CellKind;
use crate::neighbours::Neighbours;
use cox_context::Context;
use cox_row::LowerRows;
use cox_scc::Digraph;
use std::alloc::{AllocError, Global};

/// Descents of a member, as sets on each side: bit s - 1 for the letter s. On a side that does not count for the kind of cells, the set is
/// empty.
#[derive(Clone, Copy)]
struct Descents {
    left: u16,
    right: u16,
}

/// The graph with an edge for each step, from the rows of all members.
pub(crate) fn steps<L: LowerRows>(
    alloc: Global,
    context: &Context,
    rows: &L,
    kind: CellKind,
) -> Result<Digraph, AllocError>
    requires rows { L.elements rows.now ≡ context.now }
    requires held { (i : ℕ) → i < length context.now.members → L.holds rows.now i }
    ensures vertices { IfOk result (λ steps. vertices_of steps ≡ length context.now.members) }
    ensures steps { IfOk result (λ steps. AreSteps kind context.now (length context.now.members) (edges_of steps)) }
{
    let neighbours = Neighbours::of(alloc, context, rows)?;
    let mut steps = Digraph::new(alloc, context.len())?;
    for j in 0..context.len() {
        add_steps(&mut steps, context, neighbours.before(context, j), kind, j)?;
    }
    Ok(steps)
}

/// Adds the steps between a member and its neighbours before it.
fn add_steps(
    steps: &mut Digraph,
    context: &Context,
    neighbours: &[u32],
    kind: CellKind,
    j: u32,
) -> Result<(), AllocError>
    requires member { j < length context.now.members }
    requires neighbours { HasNeighbours context.now j neighbours.now }
    requires vertices { vertices_of steps.old ≡ length context.now.members }
    requires steps { AreSteps kind context.now j (edges_of steps.old) }
    ensures vertices { vertices_of steps.new ≡ vertices_of steps.old }
    ensures steps { OnOk result (AreSteps kind context.now (j + 1) (edges_of steps.new)) }
{
    let _len = context.len();
    let own = counted_descents(context, kind, j);
    for &i in neighbours {
        let theirs = counted_descents(context, kind, i);
        steps.add_if(i, j, has_own(theirs, own))?;
        steps.add_if(j, i, has_own(own, theirs))?;
    }
    Ok(())
}

/// The descents of a member that count.
fn counted_descents(context: &Context, kind: CellKind, i: u32) -> Descents
    requires { i < length context.now.members }
    ensures { AreDescents kind (integer_matrix context.now.matrix) (word_at context.now.members i) result }
{
    let left = context.left_descent_set(i);
    let right = context.right_descent_set(i);
    match kind {
        CellKind::Left => Descents { left, right: 0 },
        CellKind::Right => Descents { left: 0, right },
        CellKind::Both => Descents { left, right },
    }
}

/// Whether some of the descents on a side are none of the others. One test serves both sides: which way it goes is hard to predict.
fn has_own(own: Descents, others: Descents) -> bool
    ensures { IsTrue result ↔ HasOwnLetter own others }
{
    let beyond = (own.left & !others.left) | (own.right & !others.right);
    beyond != 0
}
