//! The image of one element of a cell under one letter.
ghost use Rattle.std.specs.Prelude.{◌≡◌, ◌≢◌, ℕ, ◌+◌, ◌<◌, ◌^◌, ◌↔◌, length, ℤ, IfOk, OnOk, IsTrue, MatchOption};
ghost use Rattle.cox_base.specs.Matrix.{IsLetter};
ghost use Rattle.cox_base.specs.IntegerMatrix.{integer_matrix};
ghost use Rattle.cox_base.specs.Descents.{IsLeftDescent};
ghost use Rattle.cox_context.specs.Numbers.{word_at};
ghost use Rattle.cox_row.specs.Rising.{AreRising, AreWithin};
ghost use Rattle.cox_wgraph.specs.Edges.{IsEdge};
ghost use Rattle.cox_module.specs.Images.{IsEntry, AreTermsBefore, IsImage};
ghost use Rattle.cox_module.specs.NumberedImages.{cell_words};

use crate::{Entry, Term};
use cox_base::Side;
use cox_wgraph::WGraph;
use std::alloc::{AllocError, Global};

/// The image of the k-th element of a cell under a letter.
pub(crate) fn image_of(
    alloc: Global,
    graph: &WGraph,
    cell: &[u32],
    s: u8,
    k: u32,
) -> Result<Vec<Term>, AllocError>
    requires letter { IsLetter graph.now.matrix.rank s }
    requires place { k < length cell.now }
    requires few { length cell.now < 2 ^ 32 }
    requires within { AreWithin (length graph.now.members) cell.now }
    ensures { IfOk result (λ image. IsImage (integer_matrix graph.now.matrix) (cell_words graph.now.members cell.now) s k image.items) }
{
    let mut image = Vec::new(alloc);
    for p in 0..cell.len() as u32 {
        put_term(&mut image, graph, cell, s, k, p)?;
    }
    Ok(image)
}

/// Puts the term at one more place behind those before it, if there is one.
fn put_term(
    image: &mut Vec<Term>,
    graph: &WGraph,
    cell: &[u32],
    s: u8,
    k: u32,
    p: u32,
) -> Result<(), AllocError>
    requires letter { IsLetter graph.now.matrix.rank s }
    requires place { k < length cell.now }
    requires next { p < length cell.now }
    requires within { AreWithin (length graph.now.members) cell.now }
    requires terms { let words = cell_words graph.now.members cell.now in AreTermsBefore (integer_matrix graph.now.matrix) words s
        (word_at words k) p image.old.items }
    ensures { let words = cell_words graph.now.members cell.now in OnOk result
        (AreTermsBefore (integer_matrix graph.now.matrix) words s (word_at words k) (p + 1) image.new.items) }
{
    match entry(graph, s, cell[k as usize], cell[p as usize]) {
        Some(entry) => Ok(image.push(Term { place: p, entry })?),
        None => Ok(()),
    }
}

/// The coefficient of a vertex in the image of a vertex under a letter, if it is not 0.
fn entry(graph: &WGraph, s: u8, of: u32, at: u32) -> Option<Entry>
    requires letter { IsLetter graph.now.matrix.rank s }
    requires of { of < length graph.now.members }
    requires at { at < length graph.now.members }
    ensures { let A = integer_matrix graph.now.matrix in let x = word_at graph.now.members of in let y = word_at graph.now.members at in
        MatchOption result ((e : Entry) → ¬ IsEntry A s x y e) (λ e. IsEntry A s x y e) }
{
    let _len = graph.len();
    match (of == at, has_left_descent(graph, s, of)) {
        (true, true) => Some(Entry::Minus),
        (true, false) => Some(Entry::Square),
        (false, true) => None,
        (false, false) => half(graph, s, of, at),
    }
}

/// The coefficient where the vertices differ, and the letter is no left descent of the first one.
fn half(graph: &WGraph, s: u8, of: u32, at: u32) -> Option<Entry>
    requires letter { IsLetter graph.now.matrix.rank s }
    requires of { of < length graph.now.members }
    requires at { at < length graph.now.members }
    requires other { of ≢ at }
    requires rises { ¬ IsLeftDescent (integer_matrix graph.now.matrix) (word_at graph.now.members of) s }
    ensures { let A = integer_matrix graph.now.matrix in let x = word_at graph.now.members of in let y = word_at graph.now.members at in
        MatchOption result ((e : Entry) → ¬ IsEntry A s x y e) (λ e. IsEntry A s x y e) }
{
    let _len = graph.len();
    if !has_left_descent(graph, s, at) {
        return None;
    }
    let value = edge_value(graph, of, at)?;
    Some(Entry::Half(i64::from(value)))
}

/// Whether the letter is a left descent of a vertex.
fn has_left_descent(graph: &WGraph, s: u8, i: u32) -> bool
    requires letter { IsLetter graph.now.matrix.rank s }
    requires member { i < length graph.now.members }
    ensures { IsTrue result ↔ IsLeftDescent (integer_matrix graph.now.matrix) (word_at graph.now.members i) s }
{
    let _rank = graph.context().matrix().rank();
    (graph.label_set(Side::Left, i) >> (s - 1)) & 1 == 1
}

/// The value of the edge between two vertices, if they are joined.
fn edge_value(graph: &WGraph, i: u32, j: u32) -> Option<i32>
    requires one { i < length graph.now.members }
    requires other { j < length graph.now.members }
    ensures { let A = integer_matrix graph.now.matrix in let x = word_at graph.now.members i in let y = word_at graph.now.members j in
        MatchOption result ((m : ℤ) → ¬ IsEdge A x y m) (λ m. IsEdge A x y m) }
{
    let edges = graph.edges(i);
    match edges.binary_search_by_key(&j, |edge| edge.to) {
        Ok(place) => Some(edges[place].value),
        Err(_) => None,
    }
}
