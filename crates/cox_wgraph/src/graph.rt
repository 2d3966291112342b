//! The graph and its calls.
ghost use Rattle.std.specs.Prelude.{◌≡◌, ℕ, ◌+◌, ◌-◌, ◌≤◌, ◌<◌, ◌↔◌, length, take, drop, slice_index_or, IfOk, IsBitSet};
ghost use Rattle.cox_base.specs.Admissible.{IsAdmissible};
ghost use Rattle.cox_base.specs.IntegerMatrix.{integer_matrix};
ghost use Rattle.cox_base.specs.SideDescents.{IsDescent, descent_set};
ghost use Rattle.cox_context.specs.Closed.{IsClosed};
ghost use Rattle.cox_base.specs.Members.{IsElement};
ghost use Rattle.cox_context.specs.Numbers.{word_at};
ghost use Rattle.cox_base.specs.SortedList.{IsListOf};
ghost use Rattle.cox_wgraph.specs.Listing.{AreJoined};
ghost use Rattle.cox_wgraph.specs.NumberedEdges.{AreEdges, joined_of};

use crate::Edge;
use crate::filling::{add_up, count_edges, put_edges};
use cox_base::{Side, Word};
use cox_context::Context;
use cox_row::LowerRows;
use std::alloc::{AllocError, Global};
use std::marker::Model;

/// The W-graph of the members of a context, which are its vertices by number. Contracts see the Coxeter matrix and the members.
#[derive(Drop)]
pub struct WGraph<'a> {
    /// The context, which has the labels.
    context: &'a Context,
    /// For each vertex where its edges end in the list. They begin where those of the vertex before it end.
    ends: Vec<usize>,
    /// The edges, each at both of its ends.
    edges: Vec<Edge>,
}

impl<'a> Model for WGraph<'a> {
    ghost use Rattle.cox_context.specs.Closed.{Elements};
    ghost use Rattle.cox_wgraph.specs.Building.{IsGraph};

    ghost Value = { Elements };

    ghost view = { λ g. g.context.now };

    ghost invariant = { λ g. IsGraph g.context.now g.ends.items g.edges.items };
}

impl<'a> WGraph<'a> {
    /// The graph of all members, from the rows of all of them, in time linear in vertices and edges.
    ///
    /// In A 2 there are 8 edges, all of value 1, each listed at both of its ends.
    pub fn build<L: LowerRows>(
        alloc: Global,
        context: &'a Context,
        rows: &L,
    ) -> Result<WGraph<'a>, AllocError>
        requires rows { L.elements rows.now ≡ context.now }
        requires held { (i : ℕ) → i < length context.now.members → L.holds rows.now i }
        ensures { IfOk result (λ g. g ≡ context.now) }
    {
        let len = context.len();
        let mut ends = vec![in alloc; 0; len as usize]?;
        count_edges(&mut ends, len, rows);
        let total = add_up(&mut ends);
        let mut edges = vec![in alloc; Edge { to: 0, value: 0 }; total]?;
        put_edges(&mut ends, &mut edges, len, rows);
        Ok(WGraph {
            context,
            ends,
            edges,
        })
    }

    /// The number of vertices.
    pub fn len(&self) -> u32
        ensures len { result ≡ length self.now.members }
        ensures closed { IsClosed (integer_matrix self.now.matrix) self.now.members }
        ensures admissible { IsAdmissible (integer_matrix self.now.matrix) }
    {
        self.context.len()
    }

    /// The context whose members are the vertices.
    pub fn context(&self) -> &'a Context
        ensures { result.now ≡ self.now }
    {
        self.context
    }

    /// The label of a vertex: its descents on the side, rising.
    ///
    /// In A 2 the vertex 3, which is 12, has the left label 1 and the right label 2.
    pub fn label(&self, side: Side, i: u32) -> Word
        requires { i < length self.now.members }
        ensures { result.items ≡ descent_set side (integer_matrix self.now.matrix) (word_at self.now.members i) }
    {
        match side {
            Side::Left => self.context.left_descents(i),
            Side::Right => self.context.right_descents(i),
        }
    }

    /// The same letters as a set: bit s - 1 for the letter s.
    pub fn label_set(&self, side: Side, i: u32) -> u16
        requires { i < length self.now.members }
        ensures { (k : ℕ) → IsBitSet result k ↔ IsDescent side (integer_matrix self.now.matrix) (word_at self.now.members i) (k + 1) }
    {
        match side {
            Side::Left => self.context.left_descent_set(i),
            Side::Right => self.context.right_descent_set(i),
        }
    }

    /// The edges of a vertex, by the rising number of their other end.
    ///
    /// In A 2 the vertex 0, which is the identity, has the edges of value 1 to the vertices 1 and 2.
    pub fn edges(&self, i: u32) -> &[Edge]
        requires { i < length self.now.members }
        ensures edges { AreEdges (integer_matrix self.now.matrix) self.now.members i result.now }
        ensures joined { IsListOf (IsElement (integer_matrix self.now.matrix)) self.now.members
            → AreJoined (integer_matrix self.now.matrix) (word_at self.now.members i) (joined_of self.now.members result.now) }
    {
        let _len = self.context.len();
        let start = start(&self.ends, i);
        part(&self.edges, start, self.ends[i as usize])
    }
}

/// Where the edges of a vertex begin: where those of the vertex before it end.
fn start(ends: &[usize], i: u32) -> usize
    requires { i < length ends.now }
    ensures first { i ≡ 0 → result ≡ 0 }
    ensures later { 0 < i → result ≡ slice_index_or ends.now (i - 1) 0 }
{
    if i == 0 {
        return 0;
    }
    ends[i as usize - 1]
}

/// The edges from one place of a list to another.
fn part(edges: &[Edge], start: usize, end: usize) -> &[Edge]
    requires start { start ≤ end }
    requires end { end ≤ length edges.now }
    ensures { result.now ≡ take (end - start) (drop start edges.now) }
{
    &edges[start..end]
}
