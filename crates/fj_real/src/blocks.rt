// Blocks of memory that are used again.
use std::alloc::Global;

/// The size of a block that is let go at once.
const KEPT: usize = 33_000_000;

/// Takes a block and lets it go unused, so that from here on big blocks are used again once they are let go. Up to the size of
/// the largest mapping that was let go, and 32 MiB, glibc's allocator makes no mapping of a block, and keeps twice that at the
/// end of its heap (mallopt(3), M_MMAP_THRESHOLD). Else a block of 128 KiB goes back to the system, and each page of the next
/// one is a fault. Where this block is refused, nothing is lost.
pub(crate) fn keep_big_blocks(alloc: Global) {
    let mut block: Vec<u8> = Vec::new(alloc);
    let _ = block.reserve(KEPT);
}
