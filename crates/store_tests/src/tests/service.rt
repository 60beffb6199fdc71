//! A service: what its calls refuse, and what its readers see.
ghost use Rattle.std.specs.Prelude.{◌≡◌};
ghost use Rattle.std.specs.Thread.{IsSync};

use crate::tests::support::{Bench, Count, items_of};
use kc_graph::{Item, MAX_EDGES, MAX_ITEMS, MAX_VERTICES};
use kc_service::{ApplyFault, MemSink, OpenFault, Options, Parts, Reader, Service};
use std::thread;
use std::thread::Threads;

fn open<R: Bench>(rt: &R, options: Options) -> Service<'_, R> {
    Service::open(rt, rt.alloc(), options).expect(rt, "open")
}

// Returns what `open` answers: the number that is out of range, with a letter for the option, or 0.
fn open_answer<R: Bench>(rt: &R, options: Options) -> (char, u32) {
    match Service::open(rt, rt.alloc(), options) {
        Ok(service) => {
            drop(service);
            ('o', 0)
        }
        Err(OpenFault::Vertices { vertices }) => ('v', vertices),
        Err(OpenFault::Workers { workers }) => ('w', workers),
        Err(OpenFault::EdgeLimit { edge_limit }) => ('e', edge_limit),
        Err(OpenFault::Memory(_)) => ('m', 0),
    }
}

// Vertices, workers and edge limit, and what `open` answers to them.
type Opening = (u32, u32, u32, (char, u32));

const OPENINGS: &[Opening] = &[
    (0, 1, 0, ('v', 0)),
    (MAX_VERTICES + 1, 1, 0, ('v', MAX_VERTICES + 1)),
    (3, 0, 0, ('w', 0)),
    (3, 65, 0, ('w', 65)),
    (3, 1, MAX_EDGES + 1, ('e', MAX_EDGES + 1)),
    (0, 65, MAX_EDGES + 1, ('v', 0)),
    (3, 0, MAX_EDGES + 1, ('w', 0)),
    (1, 1, 0, ('o', 0)),
    (3, 64, MAX_EDGES, ('o', 0)),
];

fn is_answered(rt: &impl Bench, opening: &Opening) -> bool {
    let (vertices, workers, edge_limit, answer) = *opening;
    let options = Options {
        workers,
        edge_limit,
        ..Options::for_vertices(vertices)
    };
    open_answer(rt, options) == answer
}

#[test]
fn options_at_and_past_their_limits(rt: HostRuntime) {
    for opening in OPENINGS {
        assert!(rt; is_answered(&rt, opening));
    }
}

// What `apply` answers: a letter for the fault and its number, or how many edges came in and, times 100, left.
type Answer = (char, u64);

fn apply_answer<R: Threads + Sync>(service: &mut Service<'_, R>, items: &[Item]) -> Answer
    ensures { service.new.table ≡ service.old.table }
{
    match service.apply(items) {
        Ok(applied) => {
            let removed = applied.removed.saturating_mul(100);
            ('o', applied.added.saturating_add(removed) as u64)
        }
        Err(ApplyFault::Halted) => ('h', 0),
        Err(ApplyFault::TooMany { items }) => ('t', items as u64),
        Err(ApplyFault::OutOfRange { item }) => ('r', item as u64),
        Err(ApplyFault::EdgeLimit { edges }) => ('e', u64::from(edges)),
        Err(ApplyFault::PhaseLimit { phase }) => ('p', u64::from(phase)),
        Err(ApplyFault::Memory(_)) => ('m', 0),
    }
}

// Returns the certificate of the state: graph and levels as a text.
fn certificate<R: Bench>(rt: &R, service: &Service<'_, R>) -> MemSink {
    let mut sink = MemSink::new(rt.alloc(), 4096, 4096, &[]).expect(rt, "memory");
    service.certificate(&mut sink).expect(rt, "certificate");
    sink
}

// Returns whether the reader finds each vertex on its level in the service, and none besides.
fn has_levels<R>(reader: &mut Reader, service: &Service<'_, R>) -> bool {
    let Ok(levels) = service.levels() else {
        return false;
    };
    let n = service.vertices();
    for v in 0..n {
        if reader.level(v) != levels.as_slice().get(v as usize).copied() {
            return false;
        }
    }
    reader.level(n).is_none() && reader.bounds(n).is_none() && reader.bounds(u32::MAX).is_none()
}

// Returns whether a batch has this answer, which refuses it, and changes nothing: not the certificate, and not what
// readers see.
fn refuses<R: Bench>(rt: &R, service: &mut Service<'_, R>, items: &[Item], answer: Answer) -> bool {
    let before = certificate(rt, service);
    let mut reader = service.reader().expect(rt, "memory");
    let refused = apply_answer(service, items) == answer && has_levels(&mut reader, service);
    drop(reader);
    let after = certificate(rt, service);
    refused && before.bytes() == after.bytes() && !service.has_halted()
}

// Batches of a service with ten vertices and two edges, which may have three edges, and what is answered to each. The
// last batch isolates vertex 10: `:` comes after `9`.
const REFUSALS: &[(&str, Answer)] = &[
    ("+09 +19 +:9", ('r', 2)),
    ("+01 +12 -9: +0;", ('r', 2)),
    ("+0: +01", ('r', 0)),
    ("+01 +12 +23 +34", ('e', 6)),
    ("+01 +12 +23 +34 +45", ('e', 7)),
    ("+01 +01 +11 +12 +23 +:0 +34", ('r', 5)),
    ("*::", ('r', 0)),
];

// Returns whether a batch has this answer.
fn answers<R: Bench>(rt: &R, service: &mut Service<'_, R>, text: &str, answer: Answer) -> bool {
    apply_answer(service, items_of(rt, text).as_slice()) == answer
}

#[test]
fn refused_batches_change_nothing(rt: HostRuntime) {
    let options = Options {
        edge_limit: 3,
        ..Options::for_vertices(10)
    };
    let mut service = open(&rt, options);
    assert!(rt; answers(&rt, &mut service, "+56 +67", ('o', 2)));
    for (text, answer) in REFUSALS {
        assert!(rt; refuses(&rt, &mut service, items_of(&rt, text).as_slice(), *answer));
    }
    assert!(rt; answers(&rt, &mut service, "+01 -56 -67 +12 +02", ('o', 203)));
    drop(service);
}

// Returns more items than a batch may have, of a vertex that isn't there: that there are too many comes first.
fn too_many(rt: &impl Bench) -> Vec<Item> {
    vec![in rt.alloc(); Item::Isolate { v: 2 }; MAX_ITEMS as usize + 1].expect(rt, "memory")
}

#[test]
fn a_batch_has_at_most_so_many_items(rt: HostRuntime) {
    let items = too_many(&rt);
    let mut service = open(&rt, Options::for_vertices(2));
    let answer = ('t', u64::from(MAX_ITEMS) + 1);
    assert!(rt; refuses(&rt, &mut service, items.as_slice(), answer));
    drop(service);
}

// What a batch and a reader wait for.
#[derive(Default, Drop)]
struct Meeting {
    asked: Count,
    applied: Count,
    ran_out: Count,
}

// Asks for the level of vertex 2 before and after the batch was applied.
fn ask_twice(reader: &mut Reader, meeting: &Meeting) -> (Option<u16>, Option<u16>) {
    let before = reader.level(2);
    meeting.asked.add(1);
    meeting.applied.wait(1, &meeting.ran_out);
    (before, reader.level(2))
}

// Applies a batch once the reader has asked.
fn apply_between<R: Threads + Sync>(
    service: &mut Service<'_, R>,
    items: &[Item],
    meeting: &Meeting,
) -> Answer {
    meeting.asked.wait(1, &meeting.ran_out);
    let answer = apply_answer(service, items);
    meeting.applied.add(1);
    answer
}

// Lets the reader ask, in a thread of its own.
fn meet<R: Threads + Sync>(
    rt: &R,
    service: &mut Service<'_, R>,
    reader: &mut Reader,
    items: &[Item],
    meeting: &Meeting,
) -> ((Option<u16>, Option<u16>), Answer) {
    thread::join_mut(
        rt,
        &mut || ask_twice(reader, meeting),
        &mut ||
            requires { IsSync R.row }
        { apply_between(service, items, meeting) },
    )
}

// Returns whether the reader sees level 0 before a batch, and level 1 after it.
fn sees_both<R: Bench>(rt: &R, service: &mut Service<'_, R>, reader: &mut Reader) -> bool {
    let items = items_of(rt, "+01 +02 +12");
    let meeting = Meeting::default();
    let (saw, answer) = meet(rt, service, reader, items.as_slice(), &meeting);
    answer == ('o', 3) && saw == (Some(0), Some(1)) && meeting.ran_out.get() == 0
}

// A reader in a thread of its own sees the state before a batch, and then the one after it. It goes on when the
// service is gone.
#[test]
fn a_reader_sees_two_points_in_order(rt: HostRuntime) {
    let mut service = open(&rt, Options::for_vertices(4));
    let mut reader = service.reader().expect(&rt, "memory");
    assert!(rt; sees_both(&rt, &mut service, &mut reader));
    drop(service);
    assert!(rt; reader.level(2) == Some(1) && reader.level(4).is_none());
    drop(reader);
}

// Takes a reader in, and returns the number of phases.
fn take_in<R>(service: Service<'_, R>, reader: Reader) -> u32
    requires { reader.table ≡ service.table }
{
    let Parts {
        engine,
        board,
        writer,
    } = service.into_parts();
    let mut writer = writer;
    writer.take_in(&board.store, reader.into_pass());
    let phases = engine.phases();
    drop(engine);
    drop(board);
    phases
}

// What a reader has seen is how the history begins: the parts of a service meet what the crates below ask for.
#[test]
fn a_reader_is_taken_in(rt: HostRuntime) {
    let mut service = open(&rt, Options::for_vertices(4));
    let mut reader = service.reader().expect(&rt, "memory");
    let items = items_of(&rt, "+01 +02 +12");
    assert!(rt; apply_answer(&mut service, items.as_slice()) == ('o', 3));
    assert!(rt; reader.vertices() == 4 && reader.level(2) == Some(1));
    assert!(rt; take_in(service, reader) == 1);
}
