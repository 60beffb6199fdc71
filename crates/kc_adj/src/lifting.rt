//! How the counts change when many vertices go up together, each to its level in a list: one pass over the neighbours
//! of each.
//!
//! `specs/private/Lifting` defines when each vertex gains.

ghost use Rattle.std.specs.Prelude.{◌≡◌, ◌+◌, ◌-◌, ◌<◌, ◌≤◌, ◌^◌, ℕ, All, cond, true, length, slice_index, slice_set};
ghost use Rattle.kc_graph.specs.Numbers.{has_number};
ghost use Rattle.kc_graph.specs.Shape.{IsGraph};
ghost use Rattle.kc_levels.specs.LevelList.{at_least, IsBelow};
ghost use Rattle.kc_adj.specs.LeveledGraph.{IsAdjacency};
ghost use Rattle.kc_adj.specs.private.Lifting.{is_unmoved, gains, lift_cost, AreLifted, CanGain, HaveGained};

use crate::counts::{Counts, as_one, gain, is_reached};
use crate::steps::Steps;
use kc_graph::{Graph, MAX_VERTICES};
use kc_levels::Levels;
use std::marker::Model;
use std::sync::ledger::Ledger;

/// The vertices of a graph that go up, from their levels in one list to those in another. Contracts see a `LiftShape`.
#[derive(Drop)]
pub struct Lift<'a> {
    /// The graph.
    pub graph: &'a Graph,
    /// The levels before.
    pub old: &'a [u16],
    /// The levels afterwards.
    pub new: &'a [u16],
}

impl<'a> Model for Lift<'a> {
    ghost use Rattle.kc_adj.specs.private.Lifting.{LiftShape, IsLift};

    ghost Value = { LiftShape };

    ghost view = { λ l. record { graph = l.graph.now; old = l.old.now; new = l.new.now } };

    ghost invariant = { λ l. IsLift (record { graph = l.graph.now; old = l.old.now; new = l.new.now }) };
}

impl<'a> Lift<'a> {
    /// Makes the lift from the levels `old` to `new`. No vertex is lower in `new`.
    pub fn new(graph: &'a Graph, old: &'a Levels, new: &'a Levels) -> Lift<'a>
        requires graph { IsGraph graph.now }
        requires small { graph.now.vertices ≤ MAX_VERTICES }
        requires before { length old.now ≡ graph.now.vertices }
        requires after { length new.now ≡ graph.now.vertices }
        requires over { IsBelow graph.now.vertices old.now new.now }
        ensures { result ≡ record { graph = graph.now; old = old.now; new = new.now } }
    {
        Lift {
            graph,
            old: old.as_slice(),
            new: new.as_slice(),
        }
    }
}

// Adds to both counts of w for a neighbour that goes up from level `from` to level `to`, unless w moves too. If no
// count of w is reached, its old level isn't loaded.
fn gain_unmoved(lift: &Lift<'_>, counts: &mut Counts, w: u32, from: u16, to: u16)
    requires vertex { w < lift.now.graph.vertices }
    requires own { w < length counts.old.own.items }
    requires below { w < length counts.old.below.items }
    requires own_small { is_unmoved lift.now w ≡ true → slice_index counts.old.own.items w < 2 ^ 31 }
    requires below_small { is_unmoved lift.now w ≡ true → slice_index counts.old.below.items w < 2 ^ 31 }
    ensures own { counts.new.own.items ≡ slice_set counts.old.own.items w (slice_index counts.old.own.items w + gains lift.now from to 0 w) }
    ensures below { counts.new.below.items ≡ slice_set counts.old.below.items w (slice_index counts.old.below.items w + gains lift.now from to 1 w) }
{
    let level = lift.new[w as usize];
    if is_reached(from, to, level) && lift.old[w as usize] == level {
        gain(counts, w, from, to, level);
    }
}

// Updates the counts of those neighbours of v that stay to v's new level, and returns both counts of v itself.
fn pass(lift: &Lift<'_>, counts: &mut Counts, v: u32) -> (u32, u32)
    requires vertex { v < lift.now.graph.vertices }
    requires own { CanGain lift.now counts.old.own.items }
    requires below { CanGain lift.now counts.old.below.items }
    ensures own { HaveGained lift.now v 0 counts.old.own.items counts.new.own.items }
    ensures below { HaveGained lift.now v 1 counts.old.below.items counts.new.below.items }
    ensures first { result.0 ≡ at_least lift.now.graph lift.now.new v (slice_index lift.now.new v) }
    ensures second { result.1 ≡ at_least lift.now.graph lift.now.new v (slice_index lift.now.new v - 1) }
{
    let from = lift.old[v as usize];
    let to = lift.new[v as usize];
    let under = to.saturating_sub(1);
    let mut own = 0;
    let mut below = 0;
    for w in lift.graph.neighbours(v) {
        let level = lift.new[*w as usize];
        own += as_one(level >= to);
        below += as_one(level >= under);
        gain_unmoved(lift, counts, *w, from, to);
    }
    (own, below)
}

/// Stores the counts of v if v moves. A vertex that stays has its counts from its neighbours' passes.
pub fn renew(lift: &Lift<'_>, counts: &mut Counts, v: u32, own: u32, below: u32)
    requires vertex { v < lift.now.graph.vertices }
    requires own { v < length counts.old.own.items }
    requires below { v < length counts.old.below.items }
    ensures own { counts.new.own.items ≡ cond (is_unmoved lift.now v) counts.old.own.items (slice_set counts.old.own.items v own) }
    ensures below { counts.new.below.items ≡ cond (is_unmoved lift.now v) counts.old.below.items (slice_set counts.old.below.items v below) }
{
    if lift.old[v as usize] != lift.new[v as usize] {
        counts.own[v as usize] = own;
        counts.below[v as usize] = below;
    }
}

/// Updates all counts to the new levels, one vertex of the list after another.
pub fn lift_counts<L: Ledger>(
    lift: &Lift<'_>,
    counts: &mut Counts,
    vertices: &[u32],
    steps: &mut Steps<L>,
)
    requires adjacency { IsAdjacency lift.now.graph lift.now.old counts.old.own.items counts.old.below.items }
    requires vertices { AreLifted lift.now vertices.now }
    ensures adjacency { IsAdjacency lift.now.graph lift.now.new counts.new.own.items counts.new.below.items }
    ensures cost { steps.new ≡ steps.old + lift_cost lift.now vertices.now }
{
    let graph = lift.graph;
    for i in 0..vertices.len() {
        let v = graph.vertex_with_prefetch(vertices, i);
        let (own, below) = pass(lift, counts, v);
        renew(lift, counts, v, own, below);
        steps.add(graph.neighbours(v).len());
        steps.tick();
    }
}

/// Counts a step for each vertex of the list, and one for each of its neighbours.
pub fn count_steps<L: Ledger>(lift: &Lift<'_>, vertices: &[u32], steps: &mut Steps<L>)
    requires { All (λ v. v < lift.now.graph.vertices) vertices.now }
    ensures { steps.new ≡ steps.old + lift_cost lift.now vertices.now }
{
    for v in vertices {
        steps.add(lift.graph.neighbours(*v).len());
        steps.tick();
    }
}

/// Puts each vertex of the list on its new level; all other levels stay.
pub fn take_up(levels: &mut Levels, vertices: &[u32], new: &Levels)
    requires sized { length new.now ≡ length levels.old }
    requires vertices { (v : ℕ) → has_number v vertices.now ≡ true → v < length levels.old }
    requires over { IsBelow (length levels.old) levels.old new.now }
    requires moved { (v : ℕ) → slice_index levels.old v < slice_index new.now v → has_number v vertices.now ≡ true }
    ensures { levels.new ≡ new.now }
{
    for v in vertices {
        levels.set(*v, new.get(*v));
    }
}
