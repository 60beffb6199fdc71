//! Edges one after another.

ghost use Rattle.std.specs.Prelude.{◌≡◌};
ghost use Rattle.std.specs.List.Sorted.{IsPermutation, IsSorted};
ghost use Rattle.kc_graph.specs.private.EdgeLists.{pair_cmp};
ghost use Rattle.kc_graph.specs.EdgeLists.{last_edge};

use crate::edges::Edge;
use crate::lists::List;
use crate::sorting::is_shared;
use rayon::slice::par_sort_unstable;
use std::thread::Threads;

/// Edges one after another. Contracts see them as the list of their pairs, and say where they ascend.
pub type Edges = List<Edge>;

impl List<Edge> {
    /// Returns the last edge (`last_edge`).
    pub fn last(&self) -> Option<Edge>
        ensures { result ≡ last_edge self.now }
    {
        self.items.last().copied()
    }

    /// Puts the edges in ascending order, with threads if the list is long enough (`is_shared`).
    pub(crate) fn sort<R: Threads + Sync>(&mut self, rt: &R, workers: u32)
        ensures same { IsPermutation self.old self.new }
        ensures in_order { IsSorted pair_cmp self.new }
    {
        if is_shared(workers, self.items.len()) {
            par_sort_unstable(rt, self.items.as_mut_slice());
        } else {
            self.items.as_mut_slice().sort_unstable();
        }
    }
}
