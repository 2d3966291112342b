//! The left cells, the right cells and the two-sided cells of a finite Coxeter group.
//!
//! In the preorder of a side, x <= w where a chain of edges of the W-graph leads from x to w, and some descent of the first end of each
//! edge is none of its second end. Two elements are in one cell where each is below the other (Kazhdan and Lusztig 1979, section 1). So
//! the cells are the classes of a directed graph, which `cox_scc` finds in linear time. The edges are read off the rows of all elements,
//! each pair of elements once.
//!
//! - `kind`: left cells, right cells, and two-sided cells
//! - `neighbours`: what is read of the rows, in one list
//! - `steps`: the steps between the members of a context, as a directed graph
//! - `gathering`: the members of each class
//! - `components`: the cells
//! - `laws`: a finite group has one list of cells of each kind
#![tactic(auto)]

mod components;
mod gathering;
mod kind;
pub mod laws;
mod neighbours;
mod steps;

pub use components::cells;
pub use kind::CellKind;
