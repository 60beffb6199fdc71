//! The moves of a phase, as they are found from the levels before and after it.
ghost use Rattle.std.specs.Prelude.{◌≡◌, ◌<◌, ◌≤◌, OnOk, IfOk, length};
ghost use Rattle.kc_levels.specs.Moved.{is_moved, moves_between};

use kc_graph::MAX_VERTICES;
use kc_history::{Move, Moves};
use std::alloc::{AllocError, Global};

// The number of levels that are compared at once: 64 bytes. If single vertices move here and there, longer runs are
// seldom equal.
const RUN: u32 = 32;

// Returns whether v moves.
fn is_moved(before: &[u16], after: &[u16], v: u32) -> bool
    requires vertex { v < length before.now }
    requires same { length after.now ≡ length before.now }
    ensures { result ≡ is_moved before.now after.now v }
{
    before[v as usize] != after[v as usize]
}

// Appends the moves of the vertices from one place to another.
fn list_run(
    before: &[u16],
    after: &[u16],
    from: u32,
    to: u32,
    moves: &mut Moves,
) -> Result<(), AllocError>
    requires order { from ≤ to }
    requires inside { to ≤ length before.now }
    requires same { length after.now ≡ length before.now }
    requires moves { moves.old ≡ moves_between from before.now after.now }
    ensures { OnOk result (moves.new ≡ moves_between to before.now after.now) }
{
    for v in from..to {
        if is_moved(before, after, v) {
            moves.push(Move {
                vertex: v,
                old: before[v as usize],
                new: after[v as usize],
            })?;
        }
    }
    Ok(())
}

// Returns the moves of n vertices, ascending. One pass over the levels, which tests single vertices only if a run of
// levels has changed.
pub(crate) fn find_moves(
    alloc: Global,
    n: u32,
    before: &[u16],
    after: &[u16],
) -> Result<Moves, AllocError>
    requires small { n ≤ MAX_VERTICES }
    requires before { length before.now ≡ n }
    requires after { length after.now ≡ n }
    ensures { IfOk result (λ moves. moves ≡ moves_between n before.now after.now) }
{
    let mut moves = Moves::new(alloc);
    let mut from = 0;
    while from < n {
        let to = n.min(from + RUN);
        if before[from as usize..to as usize] != after[from as usize..to as usize] {
            list_run(before, after, from, to, &mut moves)?;
        }
        from = to;
    }
    Ok(moves)
}
