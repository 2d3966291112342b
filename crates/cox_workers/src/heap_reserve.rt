//! Memory that a worker takes before it needs it.
use std::alloc::Global;

/// A worker takes a block before the first of so many orbits. A block takes the place of up to 256 calls for a page of 4 KiB.
const ORBITS_PER_BLOCK: usize = 32;

/// The size of a block in numbers of 64 bits. That is one mebibyte. Neither number was varied; docs/DECISIONS.md has what a block saves.
const BLOCK_NUMBERS: usize = 131_072;

/// Takes a block of memory and lets it go, if so many orbits were made that one is due. Without memory it does nothing.
///
/// A row is made of many small pieces. The C library has a pool of memory for each thread, which grows by a page at a time, and meanwhile
/// no other thread can get new pages. For a large block the pool grows at once, and it keeps the room when the block is let go.
pub(crate) fn reserve_heap(alloc: Global, orbits: usize) {
    if orbits % ORBITS_PER_BLOCK == 0 {
        let _ = Vec::<u64>::with_capacity(alloc, BLOCK_NUMBERS);
    }
}
