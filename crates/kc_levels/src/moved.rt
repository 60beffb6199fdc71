//! The vertices whose level differs in two lists, and the moves that lead from one list to the other.
ghost use Rattle.std.specs.Prelude.{◌≡◌, ◌<◌, ◌≤◌, ℕ, true, IfOk, length, map};
ghost use Rattle.std.specs.Bool.{OnTrue};
ghost use Rattle.kc_graph.specs.Numbers.{has_number, RisesFrom};
ghost use Rattle.kc_levels.specs.Moved.{is_moved, moved_below, move_of, moves_between};
ghost use Rattle.kc_levels.specs.Following.{AreDistinct};

use crate::{Levels, Move, Moves};
use kc_graph::{MAX_VERTICES, sort_numbers};
use std::alloc::{AllocError, Global};

// If at least a quarter of the vertices moved, they are listed by a pass over all levels. That takes 1 to 2 nanoseconds
// a level, and a sort by digits about 8 a vertex of the list.
const MOST_LEVELS: usize = 4;

// Returns whether a pass over all levels takes less time than a sort of the vertices that moved. There are never more
// levels than `MAX_VERTICES`. No contract of the callers says so, and the test is evidence for the check.
fn are_dense(count: usize, levels: usize) -> bool
    ensures { OnTrue result (levels ≤ MAX_VERTICES) }
{
    levels <= MAX_VERTICES as usize && levels / MOST_LEVELS <= count
}

// Returns the vertices whose level differs, ascending. One pass over the levels. `count` is how many there are, for the
// memory. Fails only if memory runs out.
fn list_moved(
    alloc: Global,
    before: &Levels,
    after: &Levels,
    count: usize,
) -> Result<Vec<u32>, AllocError>
    requires sized { length after.now ≡ length before.now }
    requires small { length before.now ≤ MAX_VERTICES }
    ensures { IfOk result (λ vs. vs.items ≡ moved_below (is_moved before.now after.now) (length before.now)) }
{
    let before = before.as_slice();
    let after = after.as_slice();
    let mut moved = Vec::with_capacity(alloc, count)?;
    for v in 0..before.len() {
        let (old, new) = (before[v], after[v]);
        if old != new {
            moved.push(v as u32)?;
        }
    }
    Ok(moved)
}

// Sorts these vertices, all whose level differs, or lists them anew if they are many. Each is there once.
fn sort(alloc: Global, before: &Levels, after: &Levels, vertices: &mut Vec<u32>)
    requires sized { length after.now ≡ length before.now }
    requires moved { (v : ℕ) → has_number v vertices.old.items ≡ is_moved before.now after.now v }
    requires once { AreDistinct vertices.old.items }
    ensures rises { RisesFrom 0 vertices.new.items }
    ensures same { (v : ℕ) → has_number v vertices.new.items ≡ has_number v vertices.old.items }
{
    if are_dense(vertices.len(), before.as_slice().len()) && !vertices.is_sorted() {
        if let Ok(moved) = list_moved(alloc, before, after, vertices.len()) {
            *vertices = moved;
            return;
        }
    }
    sort_numbers(alloc, vertices);
}

// Returns the moves of the vertices from one list of levels to the other, in the order of the vertices.
fn moves_in_order(
    alloc: Global,
    before: &Levels,
    after: &Levels,
    vertices: &[u32],
) -> Result<Moves, AllocError>
    requires before { (v : ℕ) → has_number v vertices.now ≡ true → v < length before.now }
    requires after { (v : ℕ) → has_number v vertices.now ≡ true → v < length after.now }
    ensures { IfOk result (λ moves. moves ≡ map (move_of before.now after.now) vertices.now) }
{
    let mut items = Vec::with_capacity(alloc, vertices.len())?;
    for v in vertices {
        items.push(Move {
            vertex: *v,
            old: before.get(*v),
            new: after.get(*v),
        })?;
    }
    Ok(Moves::from_vec(items))
}

/// Returns the moves from one list of levels to another, ascending by vertex (`moves_between`). `vertices` has each
/// vertex whose level differs, once and in any order; afterwards they are in ascending order.
///
/// Costs a sort of the vertices (`sort_numbers`). If they are a quarter of all or more, and not yet in order, it costs
/// one pass over the levels instead. Takes memory for the moves, and before them for the sort or the pass. Fails only
/// if memory runs out.
pub fn moves_of(
    alloc: Global,
    before: &Levels,
    after: &Levels,
    vertices: &mut Vec<u32>,
) -> Result<Moves, AllocError>
    requires sized { length after.now ≡ length before.now }
    requires moved { (v : ℕ) → has_number v vertices.old.items ≡ is_moved before.now after.now v }
    requires once { AreDistinct vertices.old.items }
    ensures moves { IfOk result (λ moves. moves ≡ moves_between (length before.now) before.now after.now) }
    ensures ascending { RisesFrom 0 vertices.new.items }
    ensures same { (v : ℕ) → has_number v vertices.new.items ≡ has_number v vertices.old.items }
{
    sort(alloc, before, after, vertices);
    moves_in_order(alloc, before, after, vertices)
}
