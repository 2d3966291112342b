//! Directed graphs as they are built: a number of vertices and a list of edges.
ghost use Rattle.std.specs.Prelude.{◌≡◌, ℕ, ◌<◌, ◌++◌, ◌∷◌, [], length, slice_index_or, cond, IfOk, OnOk, OnErr, Contains};

use crate::NoMemory;
use std::alloc::Global;

/// A directed graph on the vertices 0, .., n - 1. There may be parallel edges and loops.
#[derive(Drop)]
pub struct Digraph {
    pub(crate) vertices: u32,
    pub(crate) edges: Vec<(u32, u32)>,
    ghost within: { (a b : ℕ) → Contains edges.items (a, b) → (a < vertices) × (b < vertices) },
}

impl Digraph {
    ghost use Rattle.cox_scc.specs.Graph.{vertices_of, edges_of};

    /// The graph with `n` vertices and no edges. It takes no memory yet.
    pub fn new(alloc: Global, n: u32) -> Result<Digraph, NoMemory>
        ensures vertices { IfOk result (λ graph. vertices_of graph ≡ n) }
        ensures edges { IfOk result (λ graph. edges_of graph ≡ []) }
    {
        Ok(Digraph {
            vertices: n,
            edges: Vec::new(alloc),
        })
    }

    /// Adds an edge from `a` to `b`. Out of memory, the graph is as it was.
    pub fn add(&mut self, a: u32, b: u32) -> Result<(), NoMemory>
        requires from { a < vertices_of self.old }
        requires to { b < vertices_of self.old }
        ensures vertices { vertices_of self.new ≡ vertices_of self.old }
        ensures edges { OnOk result (edges_of self.new ≡ edges_of self.old ++ (a, b) ∷ []) }
        ensures err { OnErr result (edges_of self.new ≡ edges_of self.old) }
    {
        self.add_if(a, b, true)
    }

    /// Adds an edge from `a` to `b` where `holds`, with no branch on that. Out of memory, the graph is as it was.
    pub fn add_if(&mut self, a: u32, b: u32, holds: bool) -> Result<(), NoMemory>
        requires from { a < vertices_of self.old }
        requires to { b < vertices_of self.old }
        ensures vertices { vertices_of self.new ≡ vertices_of self.old }
        ensures edges { OnOk result (edges_of self.new ≡ cond holds (edges_of self.old ++ (a, b) ∷ []) (edges_of self.old)) }
        ensures err { OnErr result (edges_of self.new ≡ edges_of self.old) }
    {
        let count = self.edges.len() + usize::from(holds);
        self.edges.push((a, b))?;
        self.edges.truncate(count);
        Ok(())
    }
}
