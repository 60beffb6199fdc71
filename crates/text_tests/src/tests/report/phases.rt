// The lines of batches with a phase or two, beside lines that were worked out by hand.
ghost use Rattle.std.specs.Prelude.{ℕ, All};
ghost use Rattle.kc_graph.specs.Shape.{EdgesFrom};
ghost use Rattle.kc_groups.specs.WellFormed.{IsWellFormed};

use crate::tests::report::{cleaned_of, taken};
use crate::tests::support::{Bench, joined, sink_of};
use kc_graph::{Edge, Graph};
use kc_groups::{PhasePlan, plan_phase};
use kc_report::write_batch;
use kc_text::LineBuf;
use test_support::graphs::{are_present, edges_of, graph_of, is_below, levels_of};

type Pairs = &'static [(u32, u32)];

type Row = &'static [u16];

// A phase: its number, whether its edges come in, its edges, the graph with them, and the levels before and after it.
type Step = (u32, bool, Pairs, Pairs, Row, Row);

fn plan_in(rt: &impl Bench, step: &Step, graph: &Graph, edges: &[Edge]) -> PhasePlan
    requires { EdgesFrom graph.now.vertices 0 0 edges.now }
    ensures { (n : ℕ) × IsWellFormed n result }
{
    let (phase, add, _, _, before, after) = *step;
    let before = levels_of(rt.alloc(), before).expect(rt, "levels");
    let after = levels_of(rt.alloc(), after).expect(rt, "levels");
    assert!(rt; before.as_slice().len() == graph.vertices() as usize);
    assert!(rt; after.as_slice().len() == graph.vertices() as usize);
    assert!(rt; are_present(graph, edges));
    assert!(rt; !add || is_below(&before, &after));
    assert!(rt; add || is_below(&after, &before));
    let plan = plan_phase(rt.alloc(), phase, add, edges, &before, &after, graph);
    drop(after);
    drop(before);
    plan.expect(rt, "memory")
}

fn plan_of(rt: &impl Bench, step: &Step) -> PhasePlan
    ensures { (n : ℕ) × IsWellFormed n result }
{
    let (_, _, pairs, all, before, _) = *step;
    assert!(rt; before.len() < 9);
    let n = before.len() as u32;
    let graph = graph_of(rt.alloc(), n, all).expect(rt, "a graph");
    let edges = edges_of(rt.alloc(), n, pairs).expect(rt, "edges");
    let plan = plan_in(rt, step, &graph, &edges);
    drop(edges);
    drop(graph);
    plan
}

fn plans_of(rt: &impl Bench, steps: &[Step]) -> Vec<PhasePlan>
    ensures { All (λ plan. (n : ℕ) × IsWellFormed n plan) result.items }
{
    let mut plans = Vec::new(rt.alloc());
    for step in steps {
        plans.push(plan_of(rt, step)).expect(rt, "memory");
    }
    plans
}

// Returns the text of batch 2 with an edge that leaves, one that comes in, and these phases, and how the call ended.
// The sink takes `piece` bytes a write, and the writes with the numbers `failing` fail.
fn written(rt: &impl Bench, plans: &[PhasePlan], piece: u32, failing: &[u32]) -> Vec<u8>
    requires { All (λ plan. (n : ℕ) × IsWellFormed n plan) plans.now }
{
    assert!(rt; plans.iter().all(|plan| plan.quiet.edges.len() < 9));
    let cleaned = cleaned_of(rt, &[(0, 1)], &[(0, 2)]);
    assert!(rt; cleaned.removed.len() < 9 && cleaned.added.len() < 9);
    let mut sink = sink_of(rt, piece, failing);
    let mut buf = LineBuf::new(rt.alloc());
    let answer = write_batch(rt.alloc(), &mut buf, &mut sink, 2, &cleaned, plans);
    drop(buf);
    drop(cleaned);
    taken(rt, sink, answer)
}

const BATCH_LINE: &str = "batch 2 loops 3 repeats 40 idle 4294967295 removed 1 added 1\n";

// Returns whether a batch with these phases is written as its line and `lines`, which end with how the call ended.
fn are_written(rt: &impl Bench, steps: &[Step], lines: &str) -> bool {
    let plans = plans_of(rt, steps);
    let got = written(rt, plans.as_slice(), 7, &[]);
    drop(plans);
    got == joined(rt, &[BATCH_LINE, lines])
}

const STAR: Pairs = &[(0, 1), (0, 2), (0, 3), (0, 4)];

// A star falls.
const STAR_FALLS: &[Step] = &[(2, false, STAR, STAR, &[2, 1, 1, 1, 1], &[0; 5])];

const EDGE: Pairs = &[(0, 1)];

const SIX_EDGES: Pairs = &[(0, 1), (0, 2), (0, 3), (1, 2), (1, 3), (2, 3)];

const SIXES: Row = &[6, 6, 6, 6, 0];

// An edge leaves, and no vertex moves.
const QUIET: &[Step] = &[(2, false, EDGE, SIX_EDGES, SIXES, SIXES)];

const PAIRS: Pairs = &[(0, 1), (2, 3)];

// Two groups rise.
const TWO_GROUPS: &[Step] = &[(1, true, PAIRS, PAIRS, &[0; 6], &[1, 1, 1, 1, 0, 0])];

#[test]
fn batches_of_one_phase(rt: HostRuntime) {
    let star = "phase 2 delete quiet 0\ngroup 2 0 0:0 1:0 2:0 3:0 4:0\no";
    let groups = "phase 1 insert quiet 0\ngroup 1 0 0:1 1:1\ngroup 1 2 2:1 3:1\no";
    assert!(rt; are_written(&rt, STAR_FALLS, star));
    assert!(rt; are_written(&rt, QUIET, "phase 2 delete quiet 1\no"));
    assert!(rt; are_written(&rt, TWO_GROUPS, groups));
}

// Each line of a batch is a write: the fourth fails, after the line of the first group.
#[test]
fn each_line_of_a_batch_is_a_write(rt: HostRuntime) {
    let plans = plans_of(&rt, TWO_GROUPS);
    let got = written(&rt, plans.as_slice(), 1000, &[4]);
    drop(plans);
    let lines = "phase 1 insert quiet 0\ngroup 1 0 0:1 1:1\nf";
    assert!(rt; got == joined(&rt, &[BATCH_LINE, lines]));
}

const COMES: Pairs = &[(0, 2)];

const TWO_PHASES: &[Step] = &[
    (2, false, EDGE, EDGE, &[1, 1, 0, 0, 0], &[0; 5]),
    (3, true, COMES, COMES, &[0; 5], &[1, 0, 1, 0, 0]),
];

#[test]
fn two_fall_and_two_rise(rt: HostRuntime) {
    let lines = "phase 2 delete quiet 0\ngroup 2 0 0:0 1:0\n\
        phase 3 insert quiet 0\ngroup 3 0 0:1 2:1\no";
    assert!(rt; are_written(&rt, TWO_PHASES, lines));
}
