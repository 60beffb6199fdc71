//! The start of an insertion phase: its edges are linked.

ghost use Rattle.std.specs.Prelude.{◌≡◌, ◌+◌, ◌*◌, ◌≤◌, OnOk, length};
ghost use Rattle.kc_graph.specs.Shape.{EdgesFrom, with_edges};
ghost use Rattle.kc_graph.specs.Changes.{AllAbsent};

use kc_adj::{LevelAdj, Steps};
use kc_graph::{Crew, Edge, MAX_EDGES};
use kc_rounds::{Gate, Rounds};
use std::alloc::AllocError;
use std::sync::ledger::Ledger;
use std::thread::Threads;

/// Links the edges, which ascend (`link_all`). Workers of `rounds` share many edges. Levels stay. Counts 3 steps for
/// each edge.
///
/// Fails only if memory runs out; the graph is then unspecified.
pub fn link_edges<R: Threads + Sync, G: Gate + Sync, L: Ledger>(
    rounds: &Rounds<R, G>,
    adj: &mut LevelAdj,
    added: &[Edge],
    steps: &mut Steps<L>,
) -> Result<(), AllocError>
    requires ascending { EdgesFrom adj.old.graph.vertices 0 0 added.now }
    requires absent { AllAbsent adj.old.graph added.now }
    requires room { length adj.old.graph.edges + length added.now ≤ MAX_EDGES }
    ensures value { OnOk result (adj.new ≡ record adj.old { graph = with_edges adj.old.graph added.now }) }
    ensures cost { OnOk result (steps.new ≡ steps.old + 3 * length added.now) }
{
    let crew = Crew::new(rounds.runtime(), rounds.alloc(), rounds.workers());
    adj.link_all(&crew, added, steps)
}
