//! Ascending numbers that come into an ascending list or leave it, by one pass. If few leave a long list, each is
//! searched.

ghost use Rattle.std.specs.Prelude.{◌≡◌, ℕ, ◌+◌, ◌≤◌, ◌<◌, ◌++◌, ◌||◌, not, length, take, drop, filter, slice_index, slice_index_or};
ghost use Rattle.kc_graph.specs.Numbers.{has_number, RisesFrom};
ghost use Rattle.kc_graph.specs.private.HalfLists.{halves_of};
ghost use Rattle.kc_graph.specs.private.Halves.{has_second, SecondsRise};

use crate::halves::Halves;

/// Merges the first `old` numbers with those that come in, from the greatest down, into the end of the list.
///
/// Returns where the old numbers that stay in place end, and where the merged ones begin. The places between are free.
pub fn merge_back(items: &mut [u32], old: usize, incoming: Halves<'_>) -> (usize, usize)
    requires room { length items.old ≡ old + length (halves_of incoming) }
    requires rises { RisesFrom 0 (take old items.old) }
    requires incoming { SecondsRise (halves_of incoming) }
    ensures order { result.0 ≤ result.1 }
    ensures within { result.1 ≤ length items.new }
    ensures rises { RisesFrom 0 (take result.0 items.new ++ drop result.1 items.new) }
    ensures has { (x : ℕ) → has_number x (take result.0 items.new ++ drop result.1 items.new) ≡ has_number x (take old items.old) || has_second x (halves_of incoming.entry) }
{
    let mut i = old;
    let mut j = incoming.len();
    let mut at = items.len();
    while j > 0 {
        j -= 1;
        let w = incoming.other_at(j);
        while i > 0 && items[i - 1] > w {
            i -= 1;
            at -= 1;
            items[at] = items[i];
        }
        if i > 0 && items[i - 1] == w {
            i -= 1;
        }
        at -= 1;
        items[at] = w;
    }
    (i, at)
}

// Returns the first place of an ascending list, from one place on, whose number isn't below x.
fn place_from(items: &[u32], from: usize, x: u32) -> usize
    requires inside { from ≤ length items.now }
    requires rises { (j k : ℕ) → from ≤ j → j < k → k < length items.now → slice_index items.now j < slice_index items.now k }
    ensures from { from ≤ result }
    ensures within { result ≤ length items.now }
    ensures below { (k : ℕ) → from ≤ k → k < result → slice_index items.now k < x }
    ensures here { result < length items.now → x ≤ slice_index items.now result }
{
    let mut low = from;
    let mut high = items.len();
    while low < high {
        let middle = low + (high - low) / 2;
        if items[middle] < x {
            low = middle + 1;
        } else {
            high = middle;
        }
    }
    low
}

// If a list has this many numbers for each that leaves, or more, a search for each costs less than a look at every
// number.
const LEAST_RUN: usize = 16;

/// Moves the numbers that stay to the front, in their order, and returns how many they are.
///
/// Looks at every number. If few leave a long list, searches each of them and moves the numbers between two of them at
/// once.
pub fn keep_others(items: &mut [u32], outgoing: Halves<'_>) -> usize
    requires rises { RisesFrom 0 items.old }
    requires outgoing { SecondsRise (halves_of outgoing) }
    ensures within { result ≤ length items.new }
    ensures kept { take result items.new ≡ filter (λ x. not (has_second x (halves_of outgoing.entry))) items.old }
{
    let searches = outgoing.len() <= items.len() / LEAST_RUN;
    let mut kept = 0;
    let mut from = 0;
    for j in 0..outgoing.len() {
        let x = outgoing.other_at(j);
        if searches {
            let place = place_from(items, from, x);
            items.copy_within(from..place, kept);
            kept += place - from;
            from = place;
        } else {
            while from < items.len() && items[from] < x {
                items[kept] = items[from];
                kept += 1;
                from += 1;
            }
        }
        if from < items.len() && items[from] == x {
            from += 1;
        }
    }
    let end = items.len();
    items.copy_within(from..end, kept);
    kept + (end - from)
}
