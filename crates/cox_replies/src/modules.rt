//! The answer on the module of a left cell.
ghost use Rattle.std.specs.Prelude.{◌≡◌, ◌+◌, ◌<◌, ◌^◌, ◌∷◌, length, List, All, Contains, ℕ};
ghost use Rattle.std.specs.List.{flat_map};
ghost use Rattle.cox_base.specs.Matrix.{IsLetter, IsWord};
ghost use Rattle.cox_base.specs.IntegerMatrix.{integer_matrix};
ghost use Rattle.cox_base.specs.Members.{IsElement};
ghost use Rattle.cox_base.specs.ShortLex.{normal_form, letters};
ghost use Rattle.cox_base.specs.SortedList.{IsListOf};
ghost use Rattle.cox_context.specs.Numbers.{word_at};
ghost use Rattle.cox_rows.specs.Holding.{HasRow};
ghost use Rattle.cox_poly.specs.Puts.{Puts};
ghost use Rattle.cox_row.specs.Rising.{AreRising, AreWithin};
ghost use Rattle.cox_cells.specs.declared.kind.CellKind.TheVariants.{Left};
ghost use Rattle.cox_cells.specs.Cells.{IsInCell};
ghost use Rattle.cox_cells.specs.NumberedCells.{lists_of, list_at};
ghost use Rattle.cox_module.specs.declared.term.Term.{Term};
ghost use Rattle.cox_module.specs.Images.{AreImages};
ghost use Rattle.cox_module.specs.NumberedImages.{cell_words, image_in};
ghost use Rattle.cox_replies.specs.ModuleReply.{IsModuleText, entry_text, image_term_text, image_text, operator_text, module_text};
ghost use Rattle.cox_replies.specs.Putting.{PutsSome};

use crate::graphs::put_next_cell;
use cox_base::Word;
use cox_cells::{CellKind, cells};
use cox_context::Context;
use cox_minroots::RootTable;
use cox_module::{CellModule, Entry, Term, cell_module};
use cox_print::{NoMemory, put_count, put_end, put_half, put_image_head, put_term_head, put_text};
use cox_rows::Rows;
use cox_wgraph::WGraph;

/// Puts the module of the left cell of w, from the rows of all elements of the group.
pub fn put_module_of(
    out: &mut Vec<u8>,
    table: &RootTable,
    rows: &Rows,
    w: &Word,
) -> Result<(), NoMemory>
    requires matrix { table.now ≡ rows.now.elements.matrix }
    requires word { IsWord table.now.rank w.now.items }
    requires whole { IsListOf (IsElement (integer_matrix rows.now.elements.matrix)) rows.now.elements.members }
    requires held { (i : ℕ) → i < length rows.now.elements.members → HasRow rows.now i }
    ensures { PutsSome result (IsModuleText (integer_matrix rows.now.elements.matrix) w.now.items)
        out.old.items out.new.items }
{
    let context = rows.context();
    let Some(i) = context.number_of(table, w) else {
        unreachable!();
    };
    let cells = cells(*out.allocator(), context, rows, CellKind::Left)?;
    let cell = list_with(&cells, i);
    put_cell_of(out, rows, cell)
}

/// Puts the module of a cell, which is the cell of an element w.
fn put_cell_of(out: &mut Vec<u8>, rows: &Rows, cell: &[u32]) -> Result<(), NoMemory>
    requires held { (i : ℕ) → i < length rows.now.elements.members → HasRow rows.now i }
    requires rising { AreRising cell.now }
    requires within { AreWithin (length rows.now.elements.members) cell.now }
    ensures { let A = integer_matrix rows.now.elements.matrix in (w : List ℕ)
        → IsListOf (IsInCell Left A (normal_form A w)) (cell_words rows.now.elements.members cell.now)
        → PutsSome result (IsModuleText A w) out.old.items out.new.items }
{
    let context = rows.context();
    let graph = WGraph::build(*out.allocator(), context, rows)?;
    let action = cell_module(*out.allocator(), &graph, cell)?;
    put_cell_module(out, context, cell, &action)
}

/// The list that has the number i.
fn list_with(lists: &[Vec<u32>], i: u32) -> &[u32]
    requires { (k : ℕ) × (k < length lists.now) × Contains (list_at (lists_of lists.now) k) i }
    ensures { (k : ℕ) × (k < length lists.now) × (result.now ≡ list_at (lists_of lists.now) k) × Contains result.now i }
{
    for list in lists {
        if list.contains(&i) {
            return list;
        }
    }
    unreachable!()
}

/// Puts the module of a cell: how many elements it has, these, and their images.
fn put_cell_module(
    out: &mut Vec<u8>,
    context: &Context,
    cell: &[u32],
    action: &CellModule,
) -> Result<(), NoMemory>
    requires within { All (λ i. i < length context.now.members) cell.now }
    requires few { length cell.now < 2 ^ 32 }
    requires letters { length action.now ≡ context.now.matrix.rank }
    requires places { All (λ images. length images ≡ length cell.now) action.now }
    requires images { AreImages (integer_matrix context.now.matrix) (cell_words context.now.members cell.now) (image_in action.now) }
    ensures { let rank = context.now.matrix.rank in Puts result (module_text rank (cell_words context.now.members cell.now)
        (image_in action.now) (letters rank)) out.old.items out.new.items }
{
    put_count(out, cell.len())?;
    put_next_cell(out, context, cell)?;
    put_operators(out, context, cell, action)
}

/// Puts the images of the elements of a cell under each letter, a line for each.
fn put_operators(
    out: &mut Vec<u8>,
    context: &Context,
    cell: &[u32],
    action: &CellModule,
) -> Result<(), NoMemory>
    requires within { All (λ i. i < length context.now.members) cell.now }
    requires few { length cell.now < 2 ^ 32 }
    requires letters { length action.now ≡ context.now.matrix.rank }
    requires places { All (λ images. length images ≡ length cell.now) action.now }
    requires images { AreImages (integer_matrix context.now.matrix) (cell_words context.now.members cell.now) (image_in action.now) }
    ensures { let rank = context.now.matrix.rank in
        Puts result (flat_map (operator_text rank (cell_words context.now.members cell.now) (image_in action.now)) (letters rank))
        out.old.items out.new.items }
{
    let rank = context.matrix().rank();
    for r in 0..rank {
        put_operator(out, context, cell, action, r as u8 + 1)?;
    }
    Ok(())
}

/// Puts the images of the elements of a cell under a letter, each behind the end of the line before.
fn put_operator(
    out: &mut Vec<u8>,
    context: &Context,
    cell: &[u32],
    action: &CellModule,
    s: u8,
) -> Result<(), NoMemory>
    requires letter { IsLetter context.now.matrix.rank s }
    requires within { All (λ i. i < length context.now.members) cell.now }
    requires few { length cell.now < 2 ^ 32 }
    requires letters { length action.now ≡ context.now.matrix.rank }
    requires places { All (λ images. length images ≡ length cell.now) action.now }
    requires images { AreImages (integer_matrix context.now.matrix) (cell_words context.now.members cell.now) (image_in action.now) }
    ensures { Puts result (operator_text context.now.matrix.rank (cell_words context.now.members cell.now) (image_in action.now) s)
        out.old.items out.new.items }
{
    for k in 0..cell.len() as u32 {
        put_image(out, context, cell, s, k, action.image(s, k))?;
    }
    Ok(())
}

/// Puts the end of the line before, and then the image of the k-th element of a cell under a letter.
fn put_image(
    out: &mut Vec<u8>,
    context: &Context,
    cell: &[u32],
    s: u8,
    k: u32,
    image: &[Term],
) -> Result<(), NoMemory>
    requires place { k < length cell.now }
    requires within { All (λ i. i < length context.now.members) cell.now }
    requires terms { All (λ (t : Term). t.place < length cell.now) image.now }
    ensures { let words = cell_words context.now.members cell.now in
        Puts result (10 ∷ image_text context.now.matrix.rank words s (word_at words k) image.now) out.old.items out.new.items }
{
    let rank = context.matrix().rank();
    prove!(context.len() > 0);
    put_end(out)?;
    put_image_head(out, rank, s, &context.word(cell[k as usize]))?;
    put_terms(out, context, cell, image)
}

/// Puts the terms of an image.
fn put_terms(
    out: &mut Vec<u8>,
    context: &Context,
    cell: &[u32],
    image: &[Term],
) -> Result<(), NoMemory>
    requires within { All (λ i. i < length context.now.members) cell.now }
    requires terms { All (λ (t : Term). t.place < length cell.now) image.now }
    ensures { Puts result (flat_map (image_term_text context.now.matrix.rank (cell_words context.now.members cell.now)) image.now)
        out.old.items out.new.items }
{
    for term in image {
        put_term(out, context, cell, *term)?;
    }
    Ok(())
}

/// Puts a term: the element and its coefficient.
fn put_term(out: &mut Vec<u8>, context: &Context, cell: &[u32], term: Term) -> Result<(), NoMemory>
    requires within { All (λ i. i < length context.now.members) cell.now }
    requires place { term.place < length cell.now }
    ensures { Puts result (image_term_text context.now.matrix.rank (cell_words context.now.members cell.now) term)
        out.old.items out.new.items }
{
    let rank = context.matrix().rank();
    prove!(context.len() > 0);
    put_term_head(out, rank, &context.word(cell[term.place as usize]))?;
    put_entry(out, term.entry)
}

/// Puts a coefficient.
fn put_entry(out: &mut Vec<u8>, entry: Entry) -> Result<(), NoMemory>
    ensures { Puts result (entry_text entry) out.old.items out.new.items }
{
    match entry {
        Entry::Minus => put_text(out, b"-1"),
        Entry::Square => put_text(out, b"v^2"),
        Entry::Half(m) => put_half(out, m),
    }
}
