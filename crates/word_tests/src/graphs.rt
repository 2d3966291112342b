//! Classes of large graphs: the pass is no recursion, and takes linear time.
ghost use Rattle.std.specs.Prelude.{◌≡◌, IfOk};
ghost use Rattle.cox_scc.specs.Graph.{vertices_of};

use cox_scc::{Digraph, NoMemory, classes};
use std::alloc::Global;
use std::test::Fail;

/// The cycle 0, 1, .., n - 1, 0.
fn cycle_of(alloc: Global, n: u32) -> Result<Digraph, NoMemory>
    ensures { IfOk result (λ graph. vertices_of graph ≡ n) }
{
    let mut graph = Digraph::new(alloc, n)?;
    for b in 0..n {
        graph.add(if b == 0 { n - 1 } else { b - 1 }, b)?;
    }
    Ok(graph)
}

/// The star with edges from 0 to all other vertices.
fn star_of(alloc: Global, n: u32) -> Result<Digraph, NoMemory>
    ensures { IfOk result (λ graph. vertices_of graph ≡ n) }
{
    let mut graph = Digraph::new(alloc, n)?;
    for b in 1..n {
        graph.add(0, b)?;
    }
    Ok(graph)
}

/// The number of the class of the last vertex.
fn last_class(alloc: Global, graph: &Digraph) -> Result<Option<u32>, NoMemory> {
    Ok(classes(alloc, graph)?.last().copied())
}

#[test]
fn a_long_cycle(rt: HostRuntime) -> Result<(), Fail> {
    let graph = cycle_of(rt.alloc(), 100_000)?;
    assert!(rt; last_class(rt.alloc(), &graph)? == Some(0));
    Ok(())
}

/// A pass that went over the edges of a vertex from the first again, after each vertex that it entered from there, would take 45 billion
/// steps.
#[test]
fn many_edges_at_one_vertex(rt: HostRuntime) -> Result<(), Fail> {
    let graph = star_of(rt.alloc(), 300_000)?;
    assert!(rt; last_class(rt.alloc(), &graph)? == Some(299_999));
    Ok(())
}
