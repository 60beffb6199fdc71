//! Batches of an engine, one after another. Levels and groups were worked out by hand from the rules of levels.
ghost use Rattle.std.specs.Prelude.{◌≡◌, ◌≤◌, false, length, All};
ghost use Rattle.kc_graph.specs.Cleaning.{IsInside};

use crate::tests::support::{Bench, items_of, put, put_number};
use kc_engine::{BatchPlan, Engine, EngineFault, MAX_PHASE, Shape};
use kc_graph::{Edge, Item, MAX_EDGES, MAX_ITEMS, MAX_VERTICES, clean};
use kc_groups::PhasePlan;
use kc_history::Entry;
use kc_levels::Profile;
use kc_rounds::OpenGate;
use store_support::items::are_batch;

// An engine whose plans are all left unshown.
#[derive(Drop)]
pub(crate) struct Unseen {
    pub(crate) engine: Engine,
    ghost none_waits: { engine.waits ≡ false },
}

impl Unseen {
    pub(crate) fn open(
        rt: &impl Bench,
        n: u32,
        workers: u32,
        phases_before: u32,
        edge_limit: u32,
    ) -> Unseen {
        assert!(rt; 1 <= n && n <= MAX_VERTICES && 1 <= workers && workers <= 64);
        assert!(rt; phases_before <= MAX_PHASE && edge_limit <= MAX_EDGES);
        let shape = Shape {
            profile: Profile::One,
            n,
            workers,
            phases_before,
            edge_limit,
        };
        Unseen {
            engine: Engine::open(rt.alloc(), shape).expect(rt, "memory"),
        }
    }

    // Plans a batch.
    pub(crate) fn plan(
        &mut self,
        rt: &impl Bench,
        items: &[Item],
    ) -> Result<BatchPlan, EngineFault> {
        assert!(rt; are_batch(items, self.engine.graph().vertices()));
        let cleaned = clean(rt, rt.alloc(), self.engine.graph(), items).expect(rt, "memory");
        let planned = self.engine.plan(rt, rt.alloc(), &OpenGate::new(), &cleaned);
        drop(cleaned);
        let plan = planned?;
        self.engine.leave_unshown();
        Ok(plan)
    }
}

fn put_edges(rt: &impl Bench, text: &mut Vec<u8>, edges: &[Edge]) {
    for e in edges {
        put_number(rt, text, b" ", e.a);
        put_number(rt, text, b"-", e.b);
    }
}

// Puts the label of a group and its phase, its moves, each as vertex, old level and new one, and its edges.
fn put_group(rt: &impl Bench, text: &mut Vec<u8>, group: &Entry) {
    let label = group.label.expect(rt, "a label");
    put_number(rt, text, b", group ", label);
    put_number(rt, text, b" of ", group.phase);
    for m in group.moves.as_slice() {
        put_number(rt, text, b" ", m.vertex);
        put_number(rt, text, b":", u32::from(m.old));
        put_number(rt, text, b"-", u32::from(m.new));
    }
    put(rt, text, b" by");
    put_edges(rt, text, group.edges.as_slice());
}

// Puts whether edges come in, the number of the phase, its quiet edges and its groups.
fn put_phase(rt: &impl Bench, text: &mut Vec<u8>, phase: &PhasePlan) {
    let quiet = &phase.quiet;
    assert!(rt; quiet.label.is_none() && quiet.moves.is_empty());
    put(rt, text, if quiet.add { b"in" } else { b"out" });
    put_number(rt, text, b" ", quiet.phase);
    put_edges(rt, text, quiet.edges.as_slice());
    for group in phase.groups.as_slice() {
        assert!(rt; group.add == quiet.add);
        put_group(rt, text, group);
    }
    put(rt, text, b"; ");
}

// Puts the phases of a batch and the number of its moves.
fn put_plan(rt: &impl Bench, text: &mut Vec<u8>, plan: &BatchPlan) {
    for phase in plan.phases.as_slice() {
        put_phase(rt, text, phase);
    }
    put_number(rt, text, b"moves ", plan.moves);
}

// Puts why a batch is refused.
fn put_fault(rt: &impl Bench, text: &mut Vec<u8>, fault: &EngineFault) {
    match fault {
        EngineFault::EdgeLimit { edges } => put_number(rt, text, b"refused for edges ", *edges),
        EngineFault::PhaseLimit { phase } => put_number(rt, text, b"refused for phase ", *phase),
        _ => put(rt, text, b"no memory"),
    }
}

// Puts the levels, the number of edges and that of phases.
fn put_state(rt: &impl Bench, text: &mut Vec<u8>, engine: &Engine) {
    put(rt, text, b"; levels");
    for level in engine.levels().as_slice() {
        put_number(rt, text, b" ", u32::from(*level));
    }
    put_number(rt, text, b"; edges ", engine.graph().edge_count());
    put_number(rt, text, b"; phases ", engine.phases());
}

// Returns the plan of a batch, and the state of its engine.
pub(crate) fn said(rt: &impl Bench, unseen: &Unseen, plan: &BatchPlan) -> Vec<u8> {
    let mut text = Vec::new(rt.alloc());
    put_plan(rt, &mut text, plan);
    put_state(rt, &mut text, &unseen.engine);
    text
}

// Plans a batch, and says what becomes of it, and the state of the engine after it.
fn told(rt: &impl Bench, unseen: &mut Unseen, batch: &str) -> Vec<u8> {
    let mut text = Vec::new(rt.alloc());
    match unseen.plan(rt, items_of(rt, batch).as_slice()) {
        Ok(plan) => put_plan(rt, &mut text, &plan),
        Err(fault) => put_fault(rt, &mut text, &fault),
    }
    put_state(rt, &mut text, &unseen.engine);
    text
}

// Batches of one engine. A row has the number of vertices, the workers, the phases before the batches and the edge
// limit. For each batch it has the items, the phases and the number of moves, or why the batch is refused. The
// levels, the number of edges and the number of phases after the batch follow.
type Case = ((u32, u32, u32, u32), &'static [&'static str]);

const CASES: &[Case] = &[
    // A star rises, and falls again.
    (
        (5, 1, 0, MAX_EDGES),
        &[
            "+01 +02 +03 +04= in 1, group 0 of 1 0:0-2 1:0-1 2:0-1 3:0-1 4:0-1 by 0-1 0-2 0-3 0-4; moves 5; levels 2 1 1 1 1; edges 4; phases 1",
            "-01 -02 -03 -04= out 2, group 0 of 2 0:2-0 1:1-0 2:1-0 3:1-0 4:1-0 by 0-1 0-2 0-3 0-4; moves 5; levels 0 0 0 0 0; edges 0; phases 2",
        ],
    ),
    // A path rises as one group. Levels depend on what was before: vertex 0 stays where a third edge had lifted it.
    (
        (5, 1, 0, MAX_EDGES),
        &[
            "+01 +02= in 1, group 0 of 1 0:0-1 1:0-1 2:0-1 by 0-1 0-2; moves 3; levels 1 1 1 0 0; edges 2; phases 1",
            "+03= in 2, group 0 of 2 0:1-2 3:0-1 by 0-3; moves 2; levels 2 1 1 1 0; edges 3; phases 2",
            "-03= out 3, group 3 of 3 3:1-0 by 0-3; moves 1; levels 2 1 1 0 0; edges 2; phases 3",
        ],
    ),
    // A neighbour that stays is in no group: a fifth vertex is joined to a complete graph on four vertices, whose
    // levels are high already. And no vertex falls without need: the four lose an edge, in a quiet phase.
    (
        (5, 1, 0, MAX_EDGES),
        &[
            "+01 +02 +03 +12 +13 +23= in 1, group 0 of 1 0:0-6 1:0-6 2:0-6 3:0-6 by 0-1 0-2 0-3 1-2 1-3 2-3; moves 4; levels 6 6 6 6 0; edges 6; phases 1",
            "+34= in 2, group 4 of 2 4:0-1 by 3-4; moves 1; levels 6 6 6 6 1; edges 7; phases 2",
            "-01= out 3 0-1; moves 0; levels 6 6 6 6 1; edges 6; phases 3",
        ],
    ),
    // A vertex falls part of the way: of a complete graph on eight vertices vertex 0 keeps two neighbours.
    (
        (8, 1, 0, MAX_EDGES),
        &[
            "+01 +02 +03 +04 +05 +06 +07 +12 +13 +14 +15 +16 +17 +23 +24 +25 +26 +27 +34 +35 +36 +37 +45 +46 +47 +56 +57 +67= in 1, group 0 of 1 0:0-19 1:0-19 2:0-19 3:0-19 4:0-19 5:0-19 6:0-19 7:0-19 by 0-1 0-2 0-3 0-4 0-5 0-6 0-7 1-2 1-3 1-4 1-5 1-6 1-7 2-3 2-4 2-5 2-6 2-7 3-4 3-5 3-6 3-7 4-5 4-6 4-7 5-6 5-7 6-7; moves 8; levels 19 19 19 19 19 19 19 19; edges 28; phases 1",
            "-01 -02 -03 -04 -05= out 2, group 0 of 2 0:19-13 by 0-1 0-2 0-3 0-4 0-5; moves 1; levels 13 19 19 19 19 19 19 19; edges 23; phases 2",
        ],
    ),
    // Edges leave before others come in.
    (
        (5, 1, 0, MAX_EDGES),
        &[
            "+01= in 1, group 0 of 1 0:0-1 1:0-1 by 0-1; moves 2; levels 1 1 0 0 0; edges 1; phases 1",
            "-01 +02= out 2, group 0 of 2 0:1-0 1:1-0 by 0-1; in 3, group 0 of 3 0:0-1 2:0-1 by 0-2; moves 4; levels 1 0 1 0 0; edges 1; phases 3",
        ],
    ),
    // Phases are limited. A batch without a phase is accepted all the same.
    (
        (2, 64, 16_777_214, MAX_EDGES),
        &[
            "+01= in 16777215, group 0 of 16777215 0:0-1 1:0-1 by 0-1; moves 2; levels 1 1; edges 1; phases 16777215",
            "-01= refused for phase 16777216; levels 1 1; edges 1; phases 16777215",
            "+10= moves 0; levels 1 1; edges 1; phases 16777215",
        ],
    ),
    // There is room for one edge, which may be exchanged for another. The last batch passes both limits, and the cause
    // is the limit of edges.
    (
        (3, 1, 16_777_212, 1),
        &[
            "+01= in 16777213, group 0 of 16777213 0:0-1 1:0-1 by 0-1; moves 2; levels 1 1 0; edges 1; phases 16777213",
            "+12= refused for edges 2; levels 1 1 0; edges 1; phases 16777213",
            "+12 -01= out 16777214, group 0 of 16777214 0:1-0 1:1-0 by 0-1; in 16777215, group 1 of 16777215 1:0-1 2:0-1 by 1-2; moves 4; levels 0 1 1; edges 1; phases 16777215",
            "+01 +02= refused for edges 3; levels 0 1 1; edges 1; phases 16777215",
        ],
    ),
];

// Returns whether each batch has the result in its row.
fn have_results(rt: &impl Bench, unseen: &mut Unseen, batches: &[&'static str]) -> bool {
    for row in batches {
        let (batch, result) = row.split_once("= ").expect(rt, "a batch and its result");
        if told(rt, unseen, batch).as_slice() != result.as_bytes() {
            return false;
        }
    }
    true
}

#[test]
fn batches_change_graph_and_levels(rt: HostRuntime) {
    for ((n, workers, phases_before, edge_limit), batches) in CASES {
        let mut unseen = Unseen::open(&rt, *n, *workers, *phases_before, *edge_limit);
        assert!(rt; have_results(&rt, &mut unseen, batches));
        drop(unseen);
    }
}

// Plans these items, which has to give 3 moves. Returns whether there was no memory for the plan; then another plan has
// to be answered with `Halted`. If there is no memory to clean the items, plans nothing.
fn halts(rt: &impl Bench, engine: &mut Engine, items: &[Item]) -> bool
    requires none_waits { engine.old.waits ≡ false }
    requires inside { All (IsInside engine.old.state.graph.vertices) items.now }
    requires few { length items.now ≤ MAX_ITEMS }
{
    let Ok(cleaned) = clean(rt, rt.alloc(), engine.graph(), items) else {
        return false;
    };
    match engine.plan(rt, rt.alloc(), &OpenGate::new(), &cleaned) {
        Ok(plan) => {
            assert!(rt; plan.moves == 3);
            drop(plan);
            false
        }
        Err(EngineFault::Memory(_)) => {
            let again = engine.plan(rt, rt.alloc(), &OpenGate::new(), &cleaned);
            assert!(rt; matches!(again, Err(EngineFault::Halted)));
            true
        }
        Err(_) => panic!(rt; "refused"),
    }
}

const PATH: &[Item] = &[Item::Insert { u: 0, v: 1 }, Item::Insert { u: 1, v: 2 }];

// An engine that finds no memory for a batch. If there is memory, the batch is planned. `hostile/check.py` tries the
// other case: it refuses one allocation after another, and counts the runs that print `halted`.
#[test]
fn an_engine_without_memory_has_halted(rt: HostRuntime) {
    let shape = Shape {
        profile: Profile::One,
        n: 5,
        workers: 1,
        phases_before: 0,
        edge_limit: MAX_EDGES,
    };
    if let Ok(mut engine) = Engine::open(rt.alloc(), shape) {
        if halts(&rt, &mut engine, PATH) {
            println!(rt; "halted").expect(&rt, "a line");
        }
        drop(engine);
    }
}
