//! The test for vertices that have too few neighbours to stand on their level.

ghost use Rattle.std.specs.Prelude.{◌≡◌, ◌<◌};
ghost use Rattle.std.specs.Bool.{OnFalse};
ghost use Rattle.kc_delete.specs.private.Capped.{is_short_in, MeetsLowerIn};

use crate::capped::Capped;
use kc_rounds::RoundTest;

/// Returns whether v has too few neighbours to stand on its level, by its kept count.
pub fn is_short(capped: Capped<'_>, v: u32) -> bool
    requires { v < capped.adj.now.graph.vertices }
    ensures value { result ≡ is_short_in capped.entry v }
    ensures meets { OnFalse result (MeetsLowerIn capped.entry v) }
{
    let level = capped.adj.level(v);
    level > 0 && capped.adj.at_least_below(v) < capped.th.low(capped.th.group(level - 1))
}

/// Tests whether a vertex waits and has too few neighbours to stand on its level.
#[derive(Drop)]
pub struct Short<'a> {
    /// The graph with its levels, which has the tested vertices.
    pub capped: Capped<'a>,
    /// For each vertex, whether it waits.
    pub marks: &'a Vec<bool>,
}

impl RoundTest for Short<'_> {
    ghost use Rattle.std.specs.Prelude.{◌&&◌, false, length, slice_index_or};

    ghost keeps = { λ test v. slice_index_or test.marks.now.items v false && is_short_in test.capped v };

    ghost may_ask = { λ test v. (v < length test.marks.now.items) × (v < test.capped.adj.now.graph.vertices) };

    fn keep(&self, v: u32) -> bool {
        self.marks[v as usize] && is_short(self.capped, v)
    }
}
