//! Counts of neighbours from a level on, and the tests of the two invariants by them.
ghost use Rattle.std.specs.Prelude.{◌≡◌, ◌<◌, ◌↔◌, IsTrue, length, slice_index};
ghost use Rattle.std.specs.Bool.{OnFalse};
ghost use Rattle.kc_levels.specs.Thresholds.{top_level};
ghost use Rattle.kc_levels.specs.LevelList.{at_least, IsWithinAt, MeetsUpper, MeetsLower};

use crate::{Levels, Thresholds};
use kc_graph::Graph;

/// Returns how many neighbours of `v` have a level of at least `level` (`at_least`).
///
/// One pass over the neighbours of `v`.
pub fn at_least(graph: &Graph, levels: &Levels, v: u32, level: u16) -> u32
    requires vertex { v < graph.now.vertices }
    requires sized { length levels.now ≡ graph.now.vertices }
    ensures value { result ≡ at_least graph.now levels.now v level }
    ensures few { result < graph.now.vertices }
{
    let neighbours = graph.neighbours(v);
    let levels = levels.as_slice();
    let mut count = 0;
    for w in neighbours {
        if levels[*w as usize] >= level {
            count += 1;
        }
    }
    count
}

/// Returns whether `v` meets the upper invariant (`MeetsUpper`): it has no more neighbours at its level or above than
/// its band allows. A vertex on the top level always meets it, so a vertex that doesn't can rise.
///
/// One pass over the neighbours of `v`.
pub fn check_upper(graph: &Graph, levels: &Levels, th: &Thresholds, v: u32) -> bool
    requires vertex { v < graph.now.vertices }
    requires sized { length levels.now ≡ graph.now.vertices }
    requires within { IsWithinAt th.now graph.now levels.now v }
    ensures meets { IsTrue result ↔ MeetsUpper th.now.profile graph.now levels.now v }
    ensures can_rise { OnFalse result (slice_index levels.now v < top_level th.now.profile th.now.vertices) }
    ensures small { top_level th.now.profile th.now.vertices < 65535 }
{
    let level = levels.get(v);
    at_least(graph, levels, v, level) <= th.high(th.group(level))
}

/// Returns whether `v` meets the lower invariant (`MeetsLower`): it is on level 0, or has enough neighbours on the
/// level below or above.
///
/// One pass over the neighbours of `v`.
pub fn check_lower(graph: &Graph, levels: &Levels, th: &Thresholds, v: u32) -> bool
    requires vertex { v < graph.now.vertices }
    requires sized { length levels.now ≡ graph.now.vertices }
    requires within { IsWithinAt th.now graph.now levels.now v }
    ensures { IsTrue result ↔ MeetsLower th.now.profile graph.now levels.now v }
{
    let level = levels.get(v);
    level == 0 || at_least(graph, levels, v, level - 1) >= th.low(th.group(level - 1))
}
