//! Flags by number. One that is not there is not set.
ghost use Rattle.std.specs.Prelude.{◌≡◌, ◌⊎◌, ℕ, ◌<◌, true, false, length, OnOk, slice_index_or};

use std::alloc::AllocError;

/// Sets a flag, behind those that are there too.
pub(crate) fn set_at(flags: &mut Vec<bool>, i: usize) -> Result<(), AllocError>
    ensures at { (j : ℕ) → slice_index_or flags.new.items j false ≡ true → (j ≡ i) ⊎ (slice_index_or flags.old.items j false ≡ true) }
    ensures set { OnOk result (slice_index_or flags.new.items i false ≡ true) }
{
    make_room(flags, i)?;
    flags[i] = true;
    Ok(())
}

/// Appends flags that are not set until there is one with the number i.
fn make_room(flags: &mut Vec<bool>, i: usize) -> Result<(), AllocError>
    ensures same { (j : ℕ) → slice_index_or flags.new.items j false ≡ slice_index_or flags.old.items j false }
    ensures room { OnOk result (i < length flags.new.items) }
{
    'places: while flags.len() <= i {
        flags.push(false)?;
    }
    Ok(())
}
