//! A forest over the places of a list: each place points to a place that is no greater, and a root to itself.
ghost use Rattle.std.specs.Prelude.{◌≡◌, ℕ, Bool, List, ◌<◌, ◌≤◌, length, slice_index};
ghost use Rattle.kc_groups.specs.private.Forest.{AreGathered, IsForest, Joins, merged};

use kc_graph::MAX_VERTICES;

// Returns the root of a place. On the way it halves the path: every second place then points to its parent's parent.
fn find(parents: &mut [u32], place: u32) -> u32
    requires inside { place < length parents.old }
    requires forest { (roots : List ℕ) × IsForest parents.old roots }
    ensures forest { (roots : List ℕ) → IsForest parents.old roots → IsForest parents.new roots }
    ensures sized { length parents.new ≡ length parents.old }
    ensures root { (roots : List ℕ) → IsForest parents.old roots → result ≡ slice_index roots place }
{
    let mut at = place;
    while parents[at as usize] != at {
        let up = parents[parents[at as usize] as usize];
        parents[at as usize] = up;
        at = up;
    }
    at
}

// Makes one tree of the trees of two places, under the lesser of their roots. Returns a place of that tree, its root
// unless the two have the same parent.
pub(crate) fn join(parents: &mut [u32], first: u32, second: u32) -> u32
    requires first { first < length parents.old }
    requires second { second < length parents.old }
    requires forest { (roots : List ℕ) × IsForest parents.old roots }
    ensures forest { (roots : List ℕ) → IsForest parents.old roots → IsForest parents.new (merged first second roots) }
    ensures sized { length parents.new ≡ length parents.old }
    ensures inside { result < length parents.old }
    ensures same { (roots : List ℕ) → IsForest parents.new roots → slice_index roots result ≡ slice_index roots first }
{
    // Two places with the same parent are in one tree already. Most are, so this test saves the stores.
    if parents[first as usize] == parents[second as usize] {
        return first;
    }
    let first = find(parents, first);
    let second = find(parents, second);
    let root = first.min(second);
    parents[first.max(second) as usize] = root;
    root
}

// Joins each place with its parent in another forest over the same places. So each tree of that forest is within a
// tree afterwards.
pub(crate) fn join_forest(others: &[u32], parents: &mut [u32])
    requires small { length others.now ≤ MAX_VERTICES }
    requires same { length others.now ≡ length parents.old }
    requires forest { (roots : List ℕ) × IsForest parents.old roots }
    requires others { (roots : List ℕ) × IsForest others.now roots }
    ensures { (linked : ℕ → ℕ → Bool) → AreGathered (length others.now) linked others.now → Joins (length others.now) linked parents.old parents.new }
{
    for place in 0..others.len() as u32 {
        join(parents, place, others[place as usize]);
    }
}
