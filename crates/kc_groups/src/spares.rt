//! Spare entries, from plans that are no longer needed. Their memory serves the entries of later plans.
ghost use Rattle.std.specs.Prelude.{◌≡◌};
ghost use Rattle.kc_groups.specs.private.Dealing.{empty_entry};

use crate::Phase;
use kc_history::Entry;
use std::alloc::Global;

// The most spare entries. Together they take less than 4 MB. The list of moves of each has at most 64 bytes, and the
// list of edges at most 96 (`Entry::push_edge`).
const MOST_SPARES: usize = 16_384;

// The most moves of a spare entry, and the most edges. In a small batch nearly every group has fewer.
const MOST_ITEMS: usize = 8;

// Returns whether the memory of an entry is worth keeping: it has few moves and few edges, so its lists are short.
fn is_small(entry: &Entry) -> bool {
    entry.moves.len() <= MOST_ITEMS && entry.edges.len() <= MOST_ITEMS
}

// Adds the small entries to the spare ones as long as these are fewer than `MOST_SPARES`, and drops the others. The
// last comes first, so that the next plan takes them in their order here, in which they mostly lie in memory.
pub(crate) fn keep_small(entries: Vec<Entry>, spares: &mut Vec<Entry>) {
    let mut entries = entries;
    for _turn in 0..entries.len() {
        if let Some(entry) = entries.pop() {
            if spares.len() < MOST_SPARES && is_small(&entry) && spares.push(entry).is_err() {
                // There is no memory for a longer list: the others are dropped too.
                return;
            }
        }
    }
}

// Makes an empty entry of the phase for a label, in the memory of a spare entry if there is one.
pub(crate) fn open_group(
    alloc: Global,
    phase: &Phase<'_>,
    label: u32,
    spares: &mut Vec<Entry>,
) -> Entry
    ensures { result ≡ empty_entry phase.now.number phase.now.add label }
{
    let mut entry = Entry::new(alloc, phase.number, Some(label), phase.add);
    if let Some(spare) = spares.pop() {
        entry.take_memory(spare);
    }
    entry
}
