//! Workers that share a list, piece by piece.
ghost use Rattle.std.specs.Prelude.{◌≡◌, ◌+◌, ◌≤◌, ◌<◌, ◌/◌, ◌%◌, max, min};

use std::alloc::Global;

/// What starts the threads of a call, where they take memory, and how many pieces of a list they share. No answer
/// depends on the number of workers.
#[derive(Drop)]
pub struct Crew<'a, R> {
    /// The runtime that starts the threads.
    pub rt: &'a R,
    /// The allocator of what the threads find, and of the answer.
    pub alloc: Global,
    /// The greatest number of pieces of a list; 0 counts as 1.
    pub workers: u32,
}

impl<'a, R> Crew<'a, R> {
    /// Makes a crew of this many workers.
    pub fn new(rt: &'a R, alloc: Global, workers: u32) -> Crew<'a, R>
        ensures { result.workers ≡ workers }
    {
        Crew { rt, alloc, workers }
    }

    /// Returns the same crew with this number of workers.
    pub fn with(&self, workers: u32) -> Crew<'a, R>
        ensures { result.workers ≡ workers }
    {
        Crew {
            rt: self.rt,
            alloc: self.alloc,
            workers,
        }
    }

    /// Returns the length of the pieces of a list with this number of items, of which only the last may be shorter.
    /// There is at most one piece for each worker and for each full `least_piece` items, and at least one.
    pub fn piece_len(&self, items: usize, least_piece: usize) -> usize
        requires { 1 ≤ least_piece }
        ensures value { let pieces = max (min (items / least_piece) self.now.workers) 1 in result ≡ items / pieces + min 1 (items % pieces) }
        ensures some { 0 < items → 0 < result }
    {
        let pieces = (items / least_piece).min(self.workers as usize).max(1);
        items.div_ceil(pieces)
    }
}
