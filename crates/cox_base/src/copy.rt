//! Copies of vectors of a fixed capacity.
ghost use Rattle.std.specs.Prelude.{◌≡◌};

use arrayvec::ArrayVec;

/// A vector with the same elements.
pub fn copy_of<const N: usize>(items: &ArrayVec<u8, N>) -> ArrayVec<u8, N>
    ensures { result.items ≡ items.now.items }
{
    let mut copy = ArrayVec::new();
    match copy.try_extend_from_slice(items.as_slice()) {
        Ok(()) => copy,
        Err(_) => unreachable!(),
    }
}
