//! Dealing of the moves and edges of a phase to the entries of their labels.
ghost use Rattle.std.specs.Prelude.{◌≡◌, ℕ, ◌<◌, ◌≤◌, [], true, OnOk, All, get_or, map, filter, length, slice_index};
ghost use Rattle.kc_groups.specs.private.Labels.{AreRooted};
ghost use Rattle.kc_groups.specs.Gathering.{vertices, AreInOrder};
ghost use Rattle.kc_groups.specs.private.Gathering.{is_mover};
ghost use Rattle.kc_groups.specs.Entries.{labels_below};
ghost use Rattle.kc_groups.specs.private.Dealing.{empty_entry, with_moves, with_edges, ArePlaces, AreDealt, AreMovesBelow, IsPlacedEdge, edge_place, is_unplaced};

use crate::Phase;
use crate::spares::open_group;
use kc_graph::{Edge, Edges, MAX_VERTICES};
use kc_history::{Entry, Move};
use std::alloc::{AllocError, Global};

// Returns the number of groups, for the memory of their entries: each has one vertex that is its own label. No clause
// says so.
pub(crate) fn count_groups(moves: &[Move], places: &[u32]) -> usize
    requires { AreInOrder (length places.now) moves.now }
{
    let mut count = 0usize;
    for m in moves {
        count = count.saturating_add(usize::from(places[m.vertex as usize] == m.vertex));
    }
    count
}

// Makes an empty entry of the phase for each label, labels ascending. Turns the label of each vertex that moves into
// the place of its entry.
//
// A label is the least vertex of its group. So the label's own place is there before another vertex needs it.
pub(crate) fn open_groups(
    alloc: Global,
    phase: &Phase<'_>,
    places: &mut [u32],
    spares: &mut Vec<Entry>,
    entries: &mut Vec<Entry>,
) -> Result<(), AllocError>
    requires small { length places.old ≤ MAX_VERTICES }
    requires order { AreInOrder (length places.old) phase.now.moves.now }
    requires rooted { AreRooted (length places.old) (is_mover phase.now.moves.now) places.old }
    requires entries { entries.old.items ≡ [] }
    ensures entries { OnOk result (entries.new.items ≡ map (empty_entry phase.now.number phase.now.add) (labels_below places.old (length places.old))) }
    ensures places { OnOk result (ArePlaces (length places.old) places.old (labels_below places.old (length places.old)) places.new (length places.old)) }
{
    let moves = phase.moves.as_slice();
    for m in moves {
        let v = m.vertex;
        let label = places[v as usize];
        if label == v {
            places[v as usize] = entries.len() as u32;
            entries.push(open_group(alloc, phase, v, spares))?;
        } else {
            places[v as usize] = places[label as usize];
        }
    }
    Ok(())
}

// The number of entries that are prefetched together: the entries and their lists lie anywhere in memory.
const TOGETHER: usize = 16;

// The fewest entries that are prefetched. Fewer stay in the near caches by themselves, and it takes longer to look for
// them than to wait for them.
const LEAST_PREFETCHED: usize = 4_096;

// Prefetches the end of the entry's moves: loads the last move. Returns true, since each move of the entry is of one of
// n vertices. The compiler can't know that, so it keeps the load.
fn prefetch_last_move(entry: &Entry, n: usize) -> bool
    requires { All (λ m. m.vertex < n) entry.now.moves }
    ensures { result ≡ true }
{
    match entry.moves.as_slice().last() {
        Some(m) => (m.vertex as usize) < n,
        None => true,
    }
}

// Returns the place of the vertex of move k. At every 16th move, first prefetches the entries of the next 16 if there
// are many entries.
fn move_place_with_prefetch(moves: &[Move], places: &[u32], entries: &[Entry], k: usize) -> u32
    requires inside { k < length moves.now }
    requires placed { All (λ m. (m.vertex < length places.now) × (slice_index places.now m.vertex < length entries.now)) moves.now }
    requires dealt { AreMovesBelow (length places.now) entries.now }
    ensures { result ≡ slice_index places.now (slice_index (vertices moves.now) k) }
{
    let place = places[moves[k].vertex as usize];
    if k % TOGETHER > 0 || entries.len() < LEAST_PREFETCHED {
        return place;
    }
    for i in k..moves.len().min(k + TOGETHER) {
        let entry = &entries[places[moves[i].vertex as usize] as usize];
        if !prefetch_last_move(entry, places.len()) {
            // Never: `prefetch_last_move` always returns true.
            return 0;
        }
    }
    place
}

// Appends each move to the entry at the place of its vertex.
pub(crate) fn deal_moves(
    moves: &[Move],
    places: &[u32],
    entries: &mut Vec<Entry>,
) -> Result<(), AllocError>
    requires placed { All (λ m. (m.vertex < length places.now) × (slice_index places.now m.vertex < length entries.old.items)) moves.now }
    requires empty { All (λ e. e.moves ≡ []) entries.old.items }
    ensures { OnOk result (AreDealt (with_moves places.now moves.now) entries.old.items entries.new.items) }
{
    for k in 0..moves.len() {
        let place = move_place_with_prefetch(moves, places, entries, k);
        entries[place as usize].push_move(moves[k])?;
    }
    Ok(())
}

// Returns the place of an end of the edge that moves, if there is one, and else the number of vertices.
fn place_at(places: &[u32], e: Edge) -> u32
    requires small { length places.now ≤ MAX_VERTICES }
    requires order { e.0 < e.1 }
    requires inside { e.1 < length places.now }
    ensures { result ≡ edge_place (length places.now) places.now e }
{
    let place = places[e.a as usize];
    if place == places.len() as u32 {
        places[e.b as usize]
    } else {
        place
    }
}

// Prefetches the end of the entry's edges: loads the last edge. Returns true, since each edge has its lesser vertex
// first. The compiler can't know that, so it keeps the load.
fn prefetch_last_edge(entry: &Entry) -> bool
    ensures { result ≡ true }
{
    match entry.edges.last() {
        Some(e) => e.a < e.b,
        None => true,
    }
}

// Returns the place of edge k (`place_at`). At every 16th edge, first prefetches the entries of the next 16 if there
// are many entries.
fn edge_place_with_prefetch(edges: &[Edge], places: &[u32], entries: &[Entry], k: usize) -> u32
    requires small { length places.now ≤ MAX_VERTICES }
    requires inside { k < length edges.now }
    requires placed { All (IsPlacedEdge (length places.now) (length entries.now) places.now) edges.now }
    ensures { result ≡ edge_place (length places.now) places.now (get_or edges.now k (0, 0)) }
{
    let place = place_at(places, edges[k]);
    if k % TOGETHER > 0 || entries.len() < LEAST_PREFETCHED {
        return place;
    }
    for i in k..edges.len().min(k + TOGETHER) {
        if let Some(entry) = entries.get(place_at(places, edges[i]) as usize) {
            if !prefetch_last_edge(entry) {
                // Never: `prefetch_last_edge` always returns true.
                return 0;
            }
        }
    }
    place
}

// Appends each edge to the entry at its place, or to the quiet edges.
pub(crate) fn deal_edges(
    places: &[u32],
    edges: &[Edge],
    quiet: &mut Edges,
    entries: &mut Vec<Entry>,
) -> Result<(), AllocError>
    requires small { length places.now ≤ MAX_VERTICES }
    requires few { length entries.old.items ≤ length places.now }
    requires placed { All (IsPlacedEdge (length places.now) (length entries.old.items) places.now) edges.now }
    requires quiet { quiet.old ≡ [] }
    requires empty { All (λ e. e.edges ≡ []) entries.old.items }
    ensures quiet { OnOk result (quiet.new ≡ filter (is_unplaced (length places.now) places.now) edges.now) }
    ensures entries { OnOk result (AreDealt (with_edges places.now edges.now) entries.old.items entries.new.items) }
{
    let n = places.len() as u32;
    for k in 0..edges.len() {
        let place = edge_place_with_prefetch(edges, places, entries, k);
        if place < n {
            entries[place as usize].push_edge(edges[k])?;
        } else {
            quiet.push(edges[k])?;
        }
    }
    Ok(())
}
