//! The W-graph of a finite Coxeter group, or of an interval of one: which elements are joined, and by which value.
//!
//! Two elements x and y are joined where mu(x,y) or mu(y,x) is not 0, and that number is the value of the edge. The label of an element is
//! the set of its left descents in the left graph, and that of its right descents in the right one (Kazhdan and Lusztig 1979, theorem 1.3).
//! The edges are the same in both, so one `WGraph` serves both sides. It is read off the rows of all members of a context, in linear time.
//!
//! - `edge`: an edge, as it is kept at each of its ends
//! - `graph`: the graph and its calls
//! - `filling`: counts the edges of each member, and puts them into one flat list
//! - `laws`: there is one value for any two elements, and one listing of a finite group
#![tactic(auto)]

mod edge;
mod filling;
mod graph;
pub mod laws;

pub use edge::Edge;
pub use graph::WGraph;
