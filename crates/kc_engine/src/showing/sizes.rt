//! The numbers of groups and moves, and the sizes of ranges.
ghost use Rattle.std.specs.Prelude.{◌≡◌, ◌⊎◌, ◌+◌, ◌*◌, ◌<◌, ◌≤◌, length};
ghost use Rattle.kc_groups.specs.WellFormed.{IsWellFormed};
ghost use Rattle.kc_store.specs.Plans.{group_at};

use kc_groups::PhasePlan;
use kc_groups::sizes::plans_are_small;

// Returns the number of groups of a plan for n vertices.
pub(crate) fn groups_of(plan: &PhasePlan, n: u32) -> u32
    requires { IsWellFormed n plan.now }
    ensures { result ≡ length plan.now.groups }
{
    // Evidence for the check: the number of groups is below 2^32.
    plans_are_small();
    plan.groups.len() as u32
}

// Returns the number of moves of the group at place g.
pub(crate) fn moves_of(plan: &PhasePlan, n: u32, g: u32) -> u32
    requires formed { IsWellFormed n plan.now }
    requires inside { g < length plan.now.groups }
    ensures { result ≡ length (group_at plan.now g).moves }
{
    // Evidence for the check: the number of moves is below 2^32.
    plans_are_small();
    plan.groups.as_slice()[g as usize].moves.len() as u32
}

// Returns the size of the ranges: the number of moves divided by the workers, rounded up.
pub(crate) fn range_size(moves: u32, workers: u32) -> u32
    requires { 1 ≤ workers }
    ensures { moves ≤ workers * result }
{
    moves.div_ceil(workers)
}

// Returns the end of the range from `from`, which has `size` moves, or as many as are left.
pub(crate) fn range_end(from: u32, size: u32, moves: u32) -> u32
    requires { from ≤ moves }
    ensures later { from ≤ result }
    ensures inside { result ≤ moves }
    ensures long { (result ≡ moves) ⊎ (result ≡ from + size) }
{
    if moves - from > size {
        from + size
    } else {
        moves
    }
}
