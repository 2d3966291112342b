//! The members of each class.
ghost use Rattle.std.specs.Prelude.{◌≡◌, ℕ, ◌<◌, ◌^◌, ◌∷◌, ◌++◌, [], length, slice_index, slice_set, IfOk, OnOk};
ghost use Rattle.cox_scc.specs.Reach.{IsLeastOfClass};
ghost use Rattle.cox_cells.specs.NumberedCells.{AreClassLists, lists_of, list_at};

use std::alloc::{AllocError, Global};

/// For each class its members, rising, and the classes by their least members. The number of a class is its least member.
pub(crate) fn gather(alloc: Global, classes: &[u32]) -> Result<Vec<Vec<u32>>, AllocError>
    requires few { length classes.now < 2 ^ 32 }
    requires least { (i : ℕ) → i < length classes.now → IsLeastOfClass (length classes.now) classes.now i }
    ensures { IfOk result (λ cells. AreClassLists classes.now (lists_of cells.items)) }
{
    let mut cells = Vec::new(alloc);
    let mut places = vec![in alloc; 0; classes.len()]?;
    for i in 0..classes.len() as u32 {
        let class = classes[i as usize];
        if class == i {
            begin(alloc, &mut cells, &mut places, i)?;
        } else {
            extend(&mut cells, places[class as usize], i)?;
        }
    }
    Ok(cells)
}

/// Begins a list with the least member of a class, and notes its place.
fn begin(
    alloc: Global,
    cells: &mut Vec<Vec<u32>>,
    places: &mut Vec<u32>,
    i: u32,
) -> Result<(), AllocError>
    requires room { length cells.old.items < 2 ^ 32 }
    requires member { i < length places.old.items }
    ensures lists { OnOk result (lists_of cells.new.items ≡ lists_of cells.old.items ++ (i ∷ []) ∷ []) }
    ensures places { OnOk result (places.new.items ≡ slice_set places.old.items i (length cells.old.items)) }
    ensures size { length places.new.items ≡ length places.old.items }
{
    let place = cells.len() as u32;
    let mut cell = Vec::new(alloc);
    cell.push(i)?;
    cells.push(cell)?;
    places[i as usize] = place;
    Ok(())
}

/// Adds a member to the list at a place.
fn extend(cells: &mut Vec<Vec<u32>>, place: u32, i: u32) -> Result<(), AllocError>
    requires { place < length cells.old.items }
    ensures { OnOk result (lists_of cells.new.items
        ≡ slice_set (lists_of cells.old.items) place (list_at (lists_of cells.old.items) place ++ i ∷ [])) }
{
    cells[place as usize].push(i)?;
    Ok(())
}
