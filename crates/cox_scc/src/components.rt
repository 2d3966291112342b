//! Strong components.
ghost use Rattle.std.specs.Prelude.{◌≡◌, ℕ, ◌<◌, IfOk, vec_len};
ghost use Rattle.cox_scc.specs.Reach.{HasEdge, AreClasses, IsLeastOfClass};
ghost use Rattle.cox_scc.specs.Graph.{vertices_of, edges_of};

use crate::NoMemory;
use crate::adjacency::Adjacency;
use crate::digraph::Digraph;
use crate::search::Search;
use std::alloc::Global;

/// The class number of each vertex, in time linear in vertices and edges.
///
/// Two vertices have equal numbers exactly where each reaches the other. The number of a class is its least vertex. With 4 vertices and the
/// edges 0 to 1, 1 to 0 and 1 to 2 the numbers are 0, 0, 2, 3.
pub fn classes(alloc: Global, graph: &Digraph) -> Result<Vec<u32>, NoMemory>
    ensures size { IfOk result (λ classes. vec_len classes ≡ vertices_of graph.now) }
    ensures same { IfOk result (λ classes. AreClasses (HasEdge (edges_of graph.now)) (vertices_of graph.now) classes.items) }
    ensures least { IfOk result (λ classes. (a : ℕ) → a < vertices_of graph.now → IsLeastOfClass (vertices_of graph.now) classes.items a) }
{
    let adjacency = Adjacency::new(alloc, graph)?;
    let mut search = Search::new(alloc, &adjacency)?;
    search.explore_all(&adjacency)?;
    Ok(search.into_classes())
}
