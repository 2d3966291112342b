//! Strong components of a directed graph.
//!
//! A `Digraph` has the vertices 0, .., n - 1 and edges between them. Two vertices are in one class exactly where each reaches the other
//! along edges, and the number of a class is its least vertex. `classes` finds the classes by one depth-first pass in linear time, with
//! stacks of its own in place of recursion.
//!
//! - digraph: `Digraph`, vertices and edges as they were added
//! - adjacency: the edges sorted by where they begin, in two flat lists
//! - search: the depth-first pass
//! - components: `classes`, which runs the pass over all vertices
//!
//! It stands on std alone. `specs/Reach.antt` has the definitions.
#![tactic(auto)]

mod adjacency;
mod components;
mod digraph;
mod search;

pub use components::classes;
pub use digraph::Digraph;
use std::alloc::AllocError;

/// Out of memory.
pub type NoMemory = AllocError;
