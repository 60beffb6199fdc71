//! Phases in which every vertex moves by itself.
ghost use Rattle.std.specs.Prelude.{◌≡◌, ◌≤◌, ◌<◌, All, IfOk, length};
ghost use Rattle.kc_graph.specs.declared.limits.TheConstants.{MAX_VERTICES};
ghost use Rattle.kc_levels.specs.LevelList.{IsBelow};
ghost use Rattle.kc_groups.specs.WellFormed.{IsWellFormed};

use kc_graph::Graph;
use kc_groups::{PhasePlan, plan_phase};
use kc_levels::Levels;
use std::alloc::{AllocError, Global};

// Returns n vertices on level 1.
fn ones(alloc: Global, n: u32) -> Result<Levels, AllocError>
    ensures { IfOk result (λ x. length x ≡ n) }
{
    let mut levels = Levels::zeros(alloc, n)?;
    for v in 0..n {
        levels.set(v, 1);
    }
    Ok(levels)
}

// Returns the plan of a phase of this number. In phases of an odd number all vertices rise to level 1, in the others
// they fall to level 0.
fn plan(
    alloc: Global,
    phase: u32,
    low: &Levels,
    high: &Levels,
    graph: &Graph,
) -> Result<PhasePlan, AllocError>
    requires low { length low.now ≡ graph.now.vertices }
    requires high { length high.now ≡ graph.now.vertices }
    requires below { IsBelow graph.now.vertices low.now high.now }
    ensures { IfOk result (IsWellFormed graph.now.vertices) }
{
    if phase % 2 == 1 {
        plan_phase(alloc, phase, true, &[], low, high, graph)
    } else {
        plan_phase(alloc, phase, false, &[], high, low, graph)
    }
}

/// Returns the plans of the phases 1 to `count` of n vertices that begin on level 0. All vertices rise to level 1 and
/// fall to level 0 by turns, each in a group of its own. There is no edge.
pub fn make_plans(alloc: Global, n: u32, count: u32) -> Result<Vec<PhasePlan>, AllocError>
    requires { (1 ≤ n) × (n ≤ MAX_VERTICES) }
    ensures formed { IfOk result (λ plans. All (IsWellFormed n) plans.items) }
    ensures count { IfOk result (λ plans. length plans.items ≡ count) }
{
    let graph = Graph::new(alloc, n)?;
    let low = Levels::zeros(alloc, n)?;
    let high = ones(alloc, n)?;
    let mut plans = Vec::new(alloc);
    for k in 0..count {
        plans.push(plan(alloc, k + 1, &low, &high, &graph)?)?;
    }
    Ok(plans)
}
