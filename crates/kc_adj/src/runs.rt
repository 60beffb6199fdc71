//! Lists of numbers that are written in runs, one after another, and read again run by run.

ghost use Rattle.std.specs.Prelude.{◌≡◌, ◌+◌, ◌<◌, ◌≤◌, ◌++◌, ◌∷◌, [], cond, drop, length, slice_set, take};

/// Writes w at the place `end`; returns `end + 1` if `holds`, else `end`. The item at that place is replaced, and all
/// other items stay.
///
/// There is no branch, since a processor couldn't predict it.
pub fn put_where(items: &mut Vec<u32>, end: usize, w: u32, holds: bool) -> usize
    requires { end < length items.old.items }
    ensures written { items.new.items ≡ slice_set items.old.items end w }
    ensures items { take result items.new.items ≡ cond holds (take end items.old.items ++ w ∷ []) (take end items.old.items) }
    ensures length { length items.new.items ≡ length items.old.items }
    ensures end { result ≤ end + 1 }
{
    items[end] = w;
    end + usize::from(holds)
}

/// Returns the run of `count` items from the place `start` on.
pub fn run_of(items: &[u32], start: usize, count: usize) -> &[u32]
    requires { start + count ≤ length items.now }
    ensures { result.now ≡ take count (drop start items.now) }
{
    &items[start..start + count]
}
