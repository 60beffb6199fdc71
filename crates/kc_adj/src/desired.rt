//! The greatest level on which a vertex has enough neighbours to stand, searched from its own level down.

ghost use Rattle.std.specs.Prelude.{◌≤◌, ◌↔◌, IsTrue};
ghost use Rattle.kc_adj.specs.private.Standing.{level_of, IsHeldOn, NotHeldAbove, Desires};

use crate::standing::Standing;
use kc_levels::at_least;

/// Returns whether the vertex is held on its own level, by its kept count.
pub fn meets_lower(at: Standing<'_>) -> bool
    ensures { IsTrue result ↔ IsHeldOn at.entry (level_of at.entry) }
{
    let level = at.adj.level(at.v);
    level == 0 || at.th.low(at.th.group(level - 1)) <= at.adj.at_least_below(at.v)
}

// Returns whether the vertex has enough neighbours on `level - 1` or above to stand on `level`, which is 1 to its own
// level.
fn is_held(at: Standing<'_>, level: u16) -> bool
    requires positive { 1 ≤ level }
    requires under { level ≤ level_of at }
    ensures { IsTrue result ↔ IsHeldOn at.entry level }
{
    at.th.low(at.th.group(level - 1)) <= at_least(at.adj.graph(), at.adj.levels(), at.v, level - 1)
}

/// Returns a level up to its own above which the vertex isn't held; it isn't held above `most`. The result is `guess`
/// if that is less than `most` and the vertex isn't held above it, and else `most`.
///
/// Costs one pass over the neighbours of the vertex.
pub fn bound_near(at: Standing<'_>, most: u16, guess: u16) -> u16
    requires under { most ≤ level_of at }
    requires above { NotHeldAbove at most }
    ensures under { result ≤ level_of at.entry }
    ensures above { NotHeldAbove at.entry result }
{
    if guess < most && !is_held(at, guess + 1) {
        guess
    } else {
        most
    }
}

/// Returns the greatest level up to its own on which the vertex is held; it isn't held above `most`.
///
/// The search goes from `most` down in steps that double each time, and then halves the rest. Costs one pass over the
/// neighbours of the vertex if the result is `most`. Otherwise about two for each doubling of the distance.
pub fn desired_below(at: Standing<'_>, most: u16) -> u16
    requires under { most ≤ level_of at }
    requires above { NotHeldAbove at most }
    ensures { Desires at.entry result }
{
    let mut least = 0;
    let mut most = most;
    let mut step = 0;
    while least < most {
        let middle = most - step.min((most - least) / 2);
        if is_held(at, middle) {
            least = middle;
        } else {
            step = 2 * (most - middle) + 1;
            most = middle - 1;
        }
    }
    least
}
