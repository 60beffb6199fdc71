//! The plan of a phase from end to end. Its moves are numbered and joined into groups. Then moves and edges are dealt
//! to the entries of these groups.
ghost use Rattle.std.specs.Prelude.{◌≡◌, ◌≤◌, [], IfOk, OnOk, length, true, false};
ghost use Rattle.kc_graph.specs.Shape.{EdgesFrom, GraphShape, with_edges};
ghost use Rattle.kc_graph.specs.Changes.{AllPresent};
ghost use Rattle.kc_levels.specs.LevelList.{IsBelow};
ghost use Rattle.kc_groups.specs.Entries.{AreEntries, IsPhasePlan};
ghost use Rattle.kc_groups.specs.Gathering.{vertices, clean, AreInOrder};
ghost use Rattle.kc_groups.specs.private.Forest.{AreGathered};
ghost use Rattle.kc_groups.specs.Links.{AreLabels};
ghost use Rattle.kc_groups.specs.private.Gathering.{AreNumbered, is_mover, in_rows};
ghost use Rattle.kc_groups.specs.private.Labels.{IsLabelled};
ghost use Rattle.kc_groups.specs.WellFormed.{IsWellFormed};

use crate::dealing::{count_groups, deal_edges, deal_moves, open_groups};
use crate::linking::{join_ends, link_rows, lone_places};
use crate::moved::find_moves;
use crate::pieces::gather_rows;
use crate::work::{GroupWork, label, number, reset};
use crate::{Phase, PhasePlan};
use kc_graph::{Crew, Edge, Graph, MAX_VERTICES};
use kc_history::{Entries, Entry, Move};
use kc_levels::Levels;
use std::alloc::{AllocError, Global};
use std::thread::Threads;

// Gives each vertex that moves the label of its group, by a forest of the moves (`gather_rows`). The moves with an edge
// of `gone` between them are joined too, and each tree is then a group. `places` has the place of each move at entry,
// and its label afterwards (`GroupWork::places`).
fn label_groups(
    graph: &Graph,
    gone: &[Edge],
    moves: &[Move],
    places: &mut [u32],
    parents: &mut [u32],
)
    requires order { AreInOrder graph.now.vertices moves.now }
    requires numbered { AreNumbered graph.now.vertices (vertices moves.now) places.old }
    requires gathered { AreGathered (length moves.now) (in_rows graph.now (vertices moves.now) 0 (length moves.now)) parents.old }
    requires ascending { EdgesFrom graph.now.vertices 0 0 gone.now }
    ensures { AreLabels (with_edges graph.now gone.now) (is_mover moves.now) places.new }
{
    // Evidence for the check: the vertices of the graph are at most `MAX_VERTICES`.
    let _n = graph.vertices();
    join_ends(gone, moves, places, parents);
    label(moves, parents, places);
}

// Makes the plan of a phase from the labels of the vertices that move. `places` has the labels, and is clean
// afterwards. The groups take the memory of spare entries as long as there are some.
fn plan_labelled(
    alloc: Global,
    phase: &Phase<'_>,
    places: &mut [u32],
    spares: &mut Vec<Entry>,
) -> Result<PhasePlan, AllocError>
    requires small { length places.old ≤ MAX_VERTICES }
    requires order { AreInOrder (length places.old) phase.now.moves.now }
    requires labelled { (g : GraphShape) × IsLabelled g phase.now places.old }
    ensures clean { OnOk result (places.new ≡ clean (length places.old)) }
    ensures entries { IfOk result (λ plan. (g : GraphShape) → IsLabelled g phase.now places.old → IsPhasePlan phase.now g [] plan) }
{
    let moves = phase.moves.as_slice();
    let mut groups = Vec::with_capacity(alloc, count_groups(moves, places))?;
    let mut quiet = Entry::new(alloc, phase.number, None, phase.add);
    open_groups(alloc, phase, places, spares, &mut groups)?;
    deal_moves(moves, places, &mut groups)?;
    deal_edges(places, phase.edges, &mut quiet.edges, &mut groups)?;
    reset(moves, places);
    Ok(PhasePlan {
        quiet,
        groups: Entries::from_vec(groups),
    })
}

/// Returns the entries of a phase, as `AreEntries` defines: by the graph with all its edges, and by levels before and
/// after it. Any levels will do, if the moves lead from the first to the second (`IsPhasePlan`).
///
/// `graph` is the graph after the phase, or the one before it. `gone` has those edges of the phase that `graph` lacks:
/// none for the graph after an insertion, and all for the graph after a deletion. The edges of `gone` ascend, and so do
/// the vertices of the moves.
///
/// Cost:
///
/// - steps for the vertices that move, their neighbours and the edges of the phase, whatever the number of vertices;
/// - threads for the neighbours: the moves are cut into a piece for each worker, but at most into 8. A piece has some
///   65,536 moves or more;
/// - 4 bytes a move besides the plan; with several pieces also 4 bytes a move for each piece.
///
/// One thread does all other work. The plan doesn't depend on the workers. The workspace is clean before and
/// afterwards. Fails only if memory runs out; the workspace is then of no further use.
pub fn plan_moves<R: Threads + Sync>(
    crew: &Crew<'_, R>,
    phase: &Phase<'_>,
    graph: &Graph,
    gone: &[Edge],
    work: &mut GroupWork,
) -> Result<PhasePlan, AllocError>
    requires clean { work.old ≡ clean graph.now.vertices }
    requires order { AreInOrder graph.now.vertices phase.now.moves.now }
    requires ascending { EdgesFrom graph.now.vertices 0 0 gone.now }
    requires present { AllPresent (with_edges graph.now gone.now) phase.now.edges.now }
    ensures clean { OnOk result (work.new ≡ clean graph.now.vertices) }
    ensures entries { IfOk result (IsPhasePlan phase.now graph.now gone.now) }
{
    // Evidence for the check, as in `label_groups`.
    let _n = graph.vertices();
    let moves = phase.moves.as_slice();
    let places = work.places.as_mut_slice();
    number(moves, places);
    let mut parents = gather_rows(crew, graph, moves, places)?;
    label_groups(graph, gone, moves, places, &mut parents);
    let plan = plan_labelled(crew.alloc, phase, places, &mut work.spares)?;
    Ok(plan)
}

/// Returns the entries of phase `phase`, as `AreEntries` defines. Its edges come in if `add` is true, and otherwise
/// leave. It changes the levels `before` to `after`. The plan is well formed.
///
/// `graph` has every edge that is there before or after the phase: it is the graph after an insertion, and the graph
/// before a deletion. The edges ascend and are in `graph`.
///
/// Cost: one pass over the levels of all vertices, and a table with a number for each. Then steps for the vertices that
/// move, their neighbours and the edges of the phase. Fails only if memory runs out.
pub fn plan_phase(
    alloc: Global,
    phase: u32,
    add: bool,
    edges: &[Edge],
    before: &Levels,
    after: &Levels,
    graph: &Graph,
) -> Result<PhasePlan, AllocError>
    requires before { length before.now ≡ graph.now.vertices }
    requires after { length after.now ≡ graph.now.vertices }
    requires ascending { EdgesFrom graph.now.vertices 0 0 edges.now }
    requires present { AllPresent graph.now edges.now }
    requires rises { add ≡ true → IsBelow graph.now.vertices before.now after.now }
    requires falls { add ≡ false → IsBelow graph.now.vertices after.now before.now }
    ensures entries { IfOk result (AreEntries phase add edges.now before.now after.now graph.now) }
    ensures well_formed { IfOk result (IsWellFormed graph.now.vertices) }
{
    let n = graph.vertices();
    let moves = find_moves(alloc, n, before.as_slice(), after.as_slice())?;
    let mut work = GroupWork::new(alloc, n)?;
    let places = work.places.as_mut_slice();
    let list = moves.as_slice();
    number(list, places);
    let mut forest = lone_places(alloc, list.len() as u32)?;
    let parents = forest.as_mut_slice();
    link_rows(graph, list, places, parents, 0..list.len());
    label_groups(graph, &[], list, places, parents);
    let phase = Phase {
        number: phase,
        add,
        edges,
        moves: &moves,
    };
    let plan = plan_labelled(alloc, &phase, places, &mut work.spares)?;
    Ok(plan)
}
