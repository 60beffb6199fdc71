//! The phases of a batch: first some edges leave, then some come in.
ghost use Rattle.std.specs.Prelude.{◌≡◌, ℕ, ◌+◌, ◌-◌, ◌<◌, ◌≤◌, OnOk, IfOk, false, true, All, length};
ghost use Rattle.kc_graph.specs.Shape.{EdgesFrom, with_edges, without_edges};
ghost use Rattle.kc_graph.specs.Changes.{AllAbsent, AllPresent};
ghost use Rattle.kc_graph.specs.CleaningLaws.{FitsGraph};
ghost use Rattle.kc_levels.specs.LevelList.{MeetsUpper, MeetsLower, MeetsBoth};
ghost use Rattle.kc_levels.specs.Moved.{moved_count};
ghost use Rattle.kc_groups.specs.WellFormed.{IsWellFormed};
ghost use Rattle.kc_engine.specs.Batches.{phases_for, phases_of, AreLoweredIn, AreRaisedIn, ArePhaseOf, graph_after_batch};
ghost use Rattle.kc_engine.specs.private.Batches.{IsPlanOf};
ghost use Rattle.kc_engine.specs.private.Blanks.{IsBlankFor};
ghost use Rattle.kc_engine.specs.private.Rest.{IsAtRest};
ghost use Rattle.kc_engine.specs.Readiness.{AreReady};

use crate::plans::BatchPlan;
use crate::work::PhaseWork;
use kc_adj::{LevelAdj, Steps};
use kc_delete::delete_phase;
use kc_graph::{Cleaned, Crew, Edges, MAX_EDGES};
use kc_groups::{Phase, plan_moves};
use kc_history::MAX_PHASE;
use kc_insert::insert_phase;
use kc_levels::Thresholds;
use kc_rounds::{Gate, Rounds};
use std::alloc::AllocError;
use std::marker::Brand;
use std::sync::ledger::{Blank, Ledger};
use std::thread::Threads;

// A graph with levels, and what phases work with.
#[derive(Drop)]
pub(crate) struct PhasedGraph {
    // The thresholds for the number of vertices of the graph.
    pub(crate) thresholds: Thresholds,
    // The graph with its levels and counts.
    pub(crate) adj: LevelAdj,
    // The workspaces, ready for the graph and its levels between two phases.
    pub(crate) work: PhaseWork,
}

// Returns the number of phases in which these edges leave, or come in: 0 or 1.
fn phases_for(edges: &Edges) -> u32
    ensures value { result ≡ phases_for edges.now }
    ensures few { result ≤ 1 }
{
    u32::from(!edges.is_empty())
}

// Returns the number of phases of the batch: 0, 1 or 2.
pub(crate) fn phase_count(cleaned: &Cleaned) -> u32
    ensures value { result ≡ phases_of cleaned.now }
    ensures few { result ≤ 2 }
{
    phases_for(&cleaned.removed) + phases_for(&cleaned.added)
}

// Returns the workers that gather the moves of a phase.
fn crew_of<'a, R: Threads + Sync, G: Gate + Sync>(rounds: &'a Rounds<'_, R, G>) -> Crew<'a, R> {
    Crew::new(rounds.runtime(), rounds.alloc(), rounds.workers())
}

impl PhasedGraph {
    // Lets edges leave, in phase `phase` if there are any, and returns its plan. The workspaces are ready before and
    // afterwards. The counter of the phase's steps is made from the blank ledger.
    fn deletion_phase<R: Threads + Sync, G: Gate + Sync, L: Ledger>(
        &mut self,
        rounds: &Rounds<'_, R, G>,
        blank: Blank,
        phase: u32,
        removed: &Edges,
    ) -> Result<BatchPlan, AllocError>
        requires blank { IsBlankFor L.name L.parts blank.name blank.parts }
        requires rest { IsAtRest self.old.thresholds self.old.adj self.old.work }
        requires lower { (v : ℕ) → v < self.old.adj.graph.vertices → MeetsLower self.old.thresholds.profile self.old.adj.graph self.old.adj.levels v }
        requires ascending { EdgesFrom self.old.adj.graph.vertices 0 0 removed.now }
        requires present { AllPresent self.old.adj.graph removed.now }
        ensures thresholds { self.new.thresholds ≡ self.old.thresholds }
        ensures graph { OnOk result (self.new.adj.graph ≡ without_edges self.old.adj.graph removed.now) }
        ensures lowered { OnOk result (AreLoweredIn self.old.thresholds.profile self.old.adj.graph removed.now self.old.adj.levels self.new.adj.levels) }
        ensures phases { IfOk result (λ plan. ArePhaseOf phase false removed.now self.old.adj.levels self.new.adj.levels self.old.adj.graph plan.phases) }
        ensures ready { OnOk result (AreReady self.old.thresholds.profile self.new.adj self.new.work) }
        ensures moves { IfOk result (λ plan. plan.moves ≡ moved_count self.old.adj.graph.vertices self.old.adj.levels self.new.adj.levels) }
    {
        let alloc = rounds.alloc();
        if removed.is_empty() {
            return Ok(BatchPlan::empty(alloc));
        }
        let PhasedGraph {
            thresholds: th,
            adj,
            work,
        } = self;
        // Evidence for the check: the edges of the graph ascend, its vertices are at most `MAX_VERTICES`, and each has
        // a level.
        let _n = adj.graph().vertices();
        let _levels = adj.levels();
        let edges = removed.as_slice();
        let mut steps = Steps::<L>::new(blank);
        let deletion = &mut work.deletion;
        let moves = delete_phase(rounds, th, adj, deletion, edges, &mut steps)?;
        // The workspace of insertions follows what the deletions changed, and so stays ready.
        work.insertion.follow(adj, edges, &moves);
        let leaving = Phase {
            number: phase,
            add: false,
            edges,
            moves: &moves,
        };
        let groups = &mut work.groups;
        let plan = plan_moves(&crew_of(rounds), &leaving, adj.graph(), edges, groups)?;
        BatchPlan::of_phase(alloc, plan, moves.len() as u32)
    }

    // Lets edges come in, in phase `phase` if there are any, and returns its plan. The workspaces are ready before and
    // afterwards. The counter of the phase's steps is made from the blank ledger.
    fn insertion_phase<R: Threads + Sync, G: Gate + Sync, L: Ledger>(
        &mut self,
        rounds: &Rounds<'_, R, G>,
        blank: Blank,
        phase: u32,
        added: &Edges,
    ) -> Result<BatchPlan, AllocError>
        requires blank { IsBlankFor L.name L.parts blank.name blank.parts }
        requires rest { IsAtRest self.old.thresholds self.old.adj self.old.work }
        requires upper { (v : ℕ) → v < self.old.adj.graph.vertices → MeetsUpper self.old.thresholds.profile self.old.adj.graph self.old.adj.levels v }
        requires ascending { EdgesFrom self.old.adj.graph.vertices 0 0 added.now }
        requires absent { AllAbsent self.old.adj.graph added.now }
        requires room { length self.old.adj.graph.edges + length added.now ≤ MAX_EDGES }
        ensures thresholds { self.new.thresholds ≡ self.old.thresholds }
        ensures graph { OnOk result (self.new.adj.graph ≡ with_edges self.old.adj.graph added.now) }
        ensures raised { OnOk result (AreRaisedIn self.old.thresholds.profile self.old.adj.graph added.now self.old.adj.levels self.new.adj.levels) }
        ensures phases { IfOk result (λ plan. ArePhaseOf phase true added.now self.old.adj.levels self.new.adj.levels self.new.adj.graph plan.phases) }
        ensures ready { OnOk result (AreReady self.old.thresholds.profile self.new.adj self.new.work) }
        ensures moves { IfOk result (λ plan. plan.moves ≡ moved_count self.old.adj.graph.vertices self.old.adj.levels self.new.adj.levels) }
    {
        let alloc = rounds.alloc();
        if added.is_empty() {
            return Ok(BatchPlan::empty(alloc));
        }
        let PhasedGraph {
            thresholds: th,
            adj,
            work,
        } = self;
        // Evidence for the check, as in a phase of deletions.
        let _n = adj.graph().vertices();
        let _levels = adj.levels();
        let edges = added.as_slice();
        let mut steps = Steps::<L>::new(blank);
        let insertion = &mut work.insertion;
        insertion.adapt(rounds, th, adj, edges)?;
        let moves = insert_phase(rounds, th, adj, insertion, edges, &mut steps)?;
        // The workspace of deletions follows what the insertions changed, and so stays ready.
        work.deletion.follow(&moves);
        let coming = Phase {
            number: phase,
            add: true,
            edges,
            moves: &moves,
        };
        let groups = &mut work.groups;
        let plan = plan_moves(&crew_of(rounds), &coming, adj.graph(), &[], groups)?;
        BatchPlan::of_phase(alloc, plan, moves.len() as u32)
    }

    // Lets the edges leave that the batch removes, and then those come in that it adds. Each is a phase of its own if
    // there are any. Returns the plan of both.
    //
    // There were `before` phases. If memory runs out, graph, levels and workspaces are unspecified.
    pub(crate) fn run_phases<R: Threads + Sync, G: Gate + Sync>(
        &mut self,
        rounds: &Rounds<'_, R, G>,
        before: u32,
        cleaned: &Cleaned,
    ) -> Result<BatchPlan, AllocError>
        requires rest { IsAtRest self.old.thresholds self.old.adj self.old.work }
        requires both { MeetsBoth self.old.thresholds.profile self.old.adj.graph self.old.adj.levels }
        requires few_phases { before ≤ MAX_PHASE }
        requires fits { FitsGraph self.old.adj.graph cleaned.now }
        requires room { length self.old.adj.graph.edges - length cleaned.now.removed + length cleaned.now.added ≤ MAX_EDGES }
        ensures thresholds { self.new.thresholds ≡ self.old.thresholds }
        ensures graph { OnOk result (self.new.adj.graph ≡ graph_after_batch self.old.adj.graph cleaned.now) }
        ensures ready { OnOk result (AreReady self.old.thresholds.profile self.new.adj self.new.work) }
        ensures plan { IfOk result (λ plan. IsPlanOf self.old.thresholds.profile before self.old.adj.graph cleaned.now self.old.adj.levels self.new.adj.levels plan) }
        ensures well_formed { IfOk result (λ plan. All (IsWellFormed self.old.adj.graph.vertices) plan.phases) }
    {
        // Evidence for the check: the edges of the graph ascend, and its vertices are at most `MAX_VERTICES`.
        let _n = self.adj.graph().vertices();
        let (removed, added) = (&cleaned.removed, &cleaned.added);
        let fallen = self.deletion_phase::<R, G, Brand>(
            rounds,
            Blank::new(1),
            before + 1,
            removed,
        )?;
        let so_far = before + phases_for(removed);
        let risen = self.insertion_phase::<R, G, Brand>(rounds, Blank::new(1), so_far + 1, added)?;
        fallen.and_then(risen)
    }
}
