//! The module of a left cell, and its calls.
ghost use Rattle.std.specs.Prelude.{◌≡◌, ℕ, ◌-◌, ◌≤◌, ◌<◌, ◌^◌, [], length, slice_index_or, All, IfOk};
ghost use Rattle.cox_base.specs.Matrix.{IsLetter};
ghost use Rattle.cox_base.specs.IntegerMatrix.{integer_matrix};
ghost use Rattle.cox_base.specs.Members.{IsElement};
ghost use Rattle.cox_base.specs.SortedList.{IsListOf};
ghost use Rattle.cox_row.specs.Rising.{AreRising, AreWithin};
ghost use Rattle.cox_cells.specs.declared.kind.CellKind.TheVariants.{Left};
ghost use Rattle.cox_cells.specs.Cells.{IsCell};
ghost use Rattle.cox_module.specs.Images.{AreImages};
ghost use Rattle.cox_module.specs.Relations.{MeetRelations};
ghost use Rattle.cox_module.specs.NumberedImages.{AreImagesUnder, cell_words, images_of, image_in};

use crate::Term;
use crate::image::image_of;
use cox_wgraph::WGraph;
use std::alloc::{AllocError, Global};
use std::marker::Model;

/// The module of a left cell of a finite Coxeter group: the operators t(s), for each letter s, on the free module over the integer
/// polynomials in v = q^(1/2) whose basis are the elements of the cell. They act from the left (Kazhdan and Lusztig 1979, section 1 and
/// theorem 1.3). Contracts see for each letter, from 1, the images of the elements.
#[derive(Drop)]
pub struct CellModule {
    /// For the letters 1, 2, .. the images of the elements of the cell.
    operators: Vec<Vec<Vec<Term>>>,
}

impl Model for CellModule {
    ghost use Rattle.std.specs.Prelude.{List};
    ghost use Rattle.cox_module.specs.declared.term.Term.{Term};
    ghost use Rattle.cox_module.specs.NumberedImages.{tables_of};

    ghost Value = { List (List (List Term)) };

    ghost view = { λ m. tables_of m.operators.items };
}

/// The module of a left cell, which is given by the numbers of its elements in the W-graph, rising. The graph is that of a whole finite
/// group.
///
/// The images are as defined for any list of vertices. The relations hold where it is a left cell. In A 2 the elements 1 and 21 are a left
/// cell: t(1) takes 1 to -1 times 1, and 21 to the sum of v times 1 and v^2 times 21.
pub fn cell_module(alloc: Global, graph: &WGraph, cell: &[u32]) -> Result<CellModule, AllocError>
    requires rising { AreRising cell.now }
    requires within { AreWithin (length graph.now.members) cell.now }
    ensures letters { IfOk result (λ m. length m ≡ graph.now.matrix.rank) }
    ensures places { IfOk result (λ m. All (λ images. length images ≡ length cell.now) m) }
    ensures images { IfOk result (λ m. AreImages (integer_matrix graph.now.matrix) (cell_words graph.now.members cell.now) (image_in m)) }
    ensures relations { IfOk result (λ m. IsListOf (IsElement (integer_matrix graph.now.matrix)) graph.now.members
        → IsCell Left (integer_matrix graph.now.matrix) (cell_words graph.now.members cell.now)
        → MeetRelations graph.now.matrix (length cell.now) (image_in m)) }
{
    let _len = graph.len();
    let rank = graph.context().matrix().rank();
    let mut operators = Vec::new(alloc);
    for r in 0..rank {
        operators.push(operator(alloc, graph, cell, r as u8 + 1)?)?;
    }
    Ok(CellModule { operators })
}

impl CellModule {
    /// t(s) x for the k-th element x of the cell, from 0: the terms of the sum, none of them 0, by the rising place of their elements in
    /// the cell, x itself among them.
    pub fn image(&self, s: u8, k: u32) -> &[Term]
        requires some { 1 ≤ s }
        requires letter { s ≤ length self.now }
        requires place { k < length (slice_index_or self.now (s - 1) []) }
        ensures { result.now ≡ image_in self.now s k }
    {
        &self.operators[s as usize - 1][k as usize]
    }
}

/// The images of the elements of a cell under one letter.
fn operator(
    alloc: Global,
    graph: &WGraph,
    cell: &[u32],
    s: u8,
) -> Result<Vec<Vec<Term>>, AllocError>
    requires letter { IsLetter graph.now.matrix.rank s }
    requires few { length cell.now < 2 ^ 32 }
    requires within { AreWithin (length graph.now.members) cell.now }
    ensures { IfOk result (λ images. AreImagesUnder (integer_matrix graph.now.matrix) (cell_words graph.now.members cell.now) s
        (length cell.now) (images_of images.items)) }
{
    let mut images = Vec::new(alloc);
    for k in 0..cell.len() as u32 {
        images.push(image_of(alloc, graph, cell, s, k)?)?;
    }
    Ok(images)
}
