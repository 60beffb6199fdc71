//! How the allocator treats memory that is given back.

use std::alloc::Global;

// The bytes of the block that is taken and given back: two pages less than 32 MiB. From greater blocks the allocator of
// the C library (glibc) learns nothing.
const KEPT: usize = (32 << 20) - 8192;

/// Lets the allocator keep blocks of up to 32 MiB that are given back, for the next that are taken. Does nothing if
/// memory runs out.
///
/// At first glibc's allocator takes each block of 128 KiB or more from the system, and gives it back to the system. So
/// each page of such a block is cleared anew. When such a block is given back, the allocator raises its limit to the
/// length of the block, up to 32 MiB. It also raises the limit for free memory at the end of the heap, to twice that.
/// So a block of that length is taken and given back once. Only its first page is touched, by the allocator, so it
/// costs a few microseconds.
pub fn keep_memory(alloc: Global) {
    drop(Vec::<u8>::with_capacity(alloc, KEPT));
}
