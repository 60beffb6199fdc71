//! Sessions over sources and sinks in memory. Each text was worked out by hand from its input.
ghost use Rattle.std.specs.Prelude.{◌≡◌};

use crate::tests::support::{Bench, Count, open_store, put};
use kc_batch::{Ask, Header, Vertices};
use kc_history::Reply;
use kc_rounds::{Gate, OpenGate, Spot};
use kc_session::{Agent, Ended, SessionFault, run_session, settle};
use kc_store::{Store, Writer};
use kc_text::{LineReader, MemSink, MemSource};

// Returns a source of an input in pieces of 16 bytes.
fn source_of(rt: &impl Bench, input: &[u8]) -> MemSource {
    MemSource::new(rt.alloc(), input, 16, &[]).expect(rt, "memory")
}

// Returns a reader of the lines after the header of an input, and that header.
fn open_input(rt: &impl Bench, source: &mut MemSource) -> (Header, LineReader) {
    let mut reader = LineReader::new(rt.alloc(), 65_536, 1_073_741_824).expect(rt, "memory");
    let header = Header::read(rt.alloc(), &mut reader, source).expect(rt, "a header");
    (header, reader)
}

// Returns the end of a session of an input, and its sink, which fails at the calls with these numbers.
fn run_failing<R: Bench, G: Gate + Sync>(
    rt: &R,
    gate: &G,
    workers: u32,
    input: &[u8],
    failing: &[u32],
) -> (Result<Ended, SessionFault>, MemSink) {
    assert!(rt; 1 <= workers && workers <= 64);
    let alloc = rt.alloc();
    let mut source = source_of(rt, input);
    let mut sink = MemSink::new(alloc, 1_048_576, 65_536, failing).expect(rt, "memory");
    let (header, reader) = open_input(rt, &mut source);
    let ended = run_session(
        rt,
        alloc,
        gate,
        workers,
        header,
        reader,
        &mut source,
        &mut sink,
    );
    (ended, sink)
}

// Runs a session that ends well. Returns its end and the sink with its text.
pub(crate) fn run<R: Bench, G: Gate + Sync>(
    rt: &R,
    gate: &G,
    workers: u32,
    input: &[u8],
) -> (Ended, MemSink) {
    let (ended, sink) = run_failing(rt, gate, workers, input, &[]);
    (ended.expect(rt, "a fault"), sink)
}

// Returns how many batches of an input were refused, how many phases there were, and the notes, if there are no
// readers.
pub(crate) fn run_settled<R: Bench, G: Gate + Sync>(
    rt: &R,
    gate: &G,
    workers: u32,
    input: &[u8],
) -> (u32, u32, MemSink) {
    assert!(rt; 1 <= workers && workers <= 64);
    let alloc = rt.alloc();
    let mut source = source_of(rt, input);
    let mut sink = MemSink::new(alloc, 1000, 1000, &[]).expect(rt, "memory");
    let (header, reader) = open_input(rt, &mut source);
    let settled = settle(
        rt,
        alloc,
        gate,
        workers,
        header,
        reader,
        &mut source,
        &mut sink,
    );
    let settled = settled.expect(rt, "a fault");
    let (refused, phases) = (settled.refused, settled.engine.phases());
    drop(settled);
    (refused, phases, sink)
}

const BATCHES: &[u8] =
    b"kcore 1\nvertices 5\nask 2 4\nbatch\n0 1\nend\nbatch\n1 9\nend\nbatch\n- 0 1\n0 2\nend\n";

// The same input without an ask.
const UNREAD: &[u8] =
    b"kcore 1\nvertices 5\n# ask 2 4\nbatch\n0 1\nend\nbatch\n1 9\nend\nbatch\n- 0 1\n0 2\nend\n";

// The text of both before the line of the reader, and after it.
const OF_BATCHES: &[u8] =
    b"kcore-run 1\nvertices 5\nbatch 1 loops 0 repeats 0 idle 0 removed 0 added 1\nphase 1 insert quiet 0\ngroup 1 0 0:1 1:1\nbatch 2 refused line 8 bad-vertex\nbatch 3 loops 0 repeats 0 idle 0 removed 1 added 1\nphase 2 delete quiet 0\ngroup 2 0 0:0 1:0\nphase 3 insert quiet 0\ngroup 3 0 0:1 2:1\n";

const OF_VERTICES: &[u8] =
    b"vertex 0 level 1 est 2 low 1 high 2 up 1 down 1\nvertex 1 level 0 est 0 low 0 high 0 up 0 down 0\nvertex 2 level 1 est 2 low 1 high 2 up 1 down 1\nvertex 3 level 0 est 0 low 0 high 0 up 0 down 0\nvertex 4 level 0 est 0 low 0 high 0 up 0 down 0\nend\n";

// The result of both but for the replies.
const COUNTS: Ended = Ended {
    batches: 3,
    refused: 1,
    phases: 3,
    groups: 3,
    moves: 6,
    edges: 1,
    replies: 0,
    top: 1,
};

// Returns whether a text is these three parts, one after another.
fn is_made_of(text: &[u8], first: &[u8], second: &[u8], third: &[u8]) -> bool {
    match text.strip_prefix(first) {
        Some(rest) => rest.strip_prefix(second) == Some(third),
        None => false,
    }
}

// Returns whether a session of this input has this line of a reader, and these replies.
fn is_written<R: Bench, G: Gate + Sync>(
    rt: &R,
    gate: &G,
    input: &[u8],
    line: &[u8],
    replies: u32,
) -> bool {
    let (ended, sink) = run(rt, gate, 2, input);
    ended == Ended { replies, ..COUNTS } && is_made_of(sink.bytes(), OF_BATCHES, line, OF_VERTICES)
}

#[test]
fn a_session_is_written_and_counted(rt: HostRuntime) {
    assert!(rt; is_written(&rt, &OpenGate::new(), BATCHES, b"reader 0 4=0 4=0\n", 2));
}

#[test]
fn a_session_without_asks_lacks_the_reader_lines_alone(rt: HostRuntime) {
    let gate = Holds::new(Hold::Publication);
    assert!(rt; is_written(&rt, &gate, UNREAD, b"", 0));
    assert!(rt; gate.published.get() == 0);
}

#[test]
fn batches_settle_with_notes(rt: HostRuntime) {
    let (refused, phases, notes) = run_settled(&rt, &OpenGate::new(), 1, BATCHES);
    assert!(rt; notes.bytes() == b"# batch 2 refused line 8 bad-vertex\n".as_slice());
    assert!(rt; refused == 1 && phases == 3);
}

// What a gate holds, in sessions whose batch has two groups, with the labels 0 and 2.
#[derive(Clone, Copy, PartialEq, Eq)]
enum Hold {
    // The second publication, until the gate hears of a reply.
    Publication,
    // The first question of each reader, until the gate hears of the second publication: the first group has taken
    // effect then.
    Question,
    // The first publication, until the gate hears of the first reply. The second question, until it hears of the second
    // publication.
    Both,
}

#[derive(Drop)]
struct Holds {
    hold: Hold,
    published: Count,
    // 1 if the gate has heard of the second publication.
    shown: Count,
    replied: Count,
    ran_out: Count,
}

impl Holds {
    fn new(hold: Hold) -> Self {
        Holds {
            hold,
            published: Count::default(),
            shown: Count::default(),
            replied: Count::default(),
            ran_out: Count::default(),
        }
    }

    fn publish(&self, label: u32) {
        let first = self.published.add(1) == 1;
        if label == 2 {
            self.shown.add(1);
        }
        if self.hold == Hold::Publication && !first || self.hold == Hold::Both && first {
            self.replied.wait(1, &self.ran_out);
        }
    }
}

impl Gate for Holds {
    fn at(&self, spot: Spot) {
        match spot {
            Spot::Publishing { label, .. } => self.publish(label),
            Spot::Asking { ask, .. } => {
                if self.hold == Hold::Question && ask == 0 || self.hold == Hold::Both && ask != 0 {
                    self.shown.wait(1, &self.ran_out);
                }
            }
            Spot::Replied { .. } => {
                self.replied.add(1);
            }
            Spot::Piece { .. } => {}
        }
    }
}

// The text of a session with two groups before the replies, and after them.
const BEFORE: &[u8] =
    b"kcore-run 1\nvertices 6\nbatch 1 loops 0 repeats 0 idle 0 removed 0 added 2\nphase 1 insert quiet 0\ngroup 1 0 0:1 1:1\ngroup 1 2 2:1 3:1\nreader 0 ";

const AFTER: &[u8] =
    b"vertex 0 level 1 est 2 low 1 high 2 up 1 down 1\nvertex 1 level 1 est 2 low 1 high 2 up 1 down 1\nvertex 2 level 1 est 2 low 1 high 2 up 1 down 1\nvertex 3 level 1 est 2 low 1 high 2 up 1 down 1\nvertex 4 level 0 est 0 low 0 high 0 up 0 down 0\nvertex 5 level 0 est 0 low 0 high 0 up 0 down 0\nend\n";

// Returns an input with these asks, and a batch of two groups.
fn two_groups(rt: &impl Bench, asks: &[u8]) -> Vec<u8> {
    let mut input = Vec::new(rt.alloc());
    put(rt, &mut input, b"kcore 1\nvertices 6\n");
    put(rt, &mut input, asks);
    put(rt, &mut input, b"batch\n+ 0 1\n+ 2 3\nend\n");
    input
}

// Returns whether a text has one of these lines of readers.
fn has_line(text: &[u8], lines: &[&[u8]]) -> bool {
    for line in lines {
        if is_made_of(text, BEFORE, line, AFTER) {
            return true;
        }
    }
    false
}

// Returns whether a session of this input, with this hold and these workers, has one of these lines of readers.
fn has_replies(rt: &impl Bench, hold: Hold, workers: u32, input: &[u8], lines: &[&[u8]]) -> bool {
    let gate = Holds::new(hold);
    let (_ended, sink) = run(rt, &gate, workers, input);
    gate.ran_out.get() == 0 && has_line(sink.bytes(), lines)
}

const WORKERS: &[u32] = &[1, 3, 64];

// Sessions with these asks and this hold have one of these lines of readers.
fn expect_replies(rt: &impl Bench, hold: Hold, asks: &[u8], lines: &[&[u8]]) {
    let input = two_groups(rt, asks);
    for workers in WORKERS {
        assert!(rt; has_replies(rt, hold, *workers, input.as_slice(), lines));
    }
}

const AT_ONCE: &[&[u8]] = &[b"0=0 1=0\n", b"0=0 1=1\n", b"0=1 1=1\n"];

#[test]
fn a_group_takes_effect_at_once(rt: HostRuntime) {
    expect_replies(&rt, Hold::Publication, b"ask 1 0 1\n", AT_ONCE);
}

// The second group is published only when the reader has the answer for a vertex of it. So that is the level from
// before the group. The levels after the batches would be explained as well.
#[test]
fn a_reply_is_from_before_what_waits_for_it(rt: HostRuntime) {
    expect_replies(&rt, Hold::Publication, b"ask 1 2\n", &[b"2=0\n"]);
}

// One reader, and then four, of which each is on the levels after the first group.
#[test]
fn a_reader_looks_while_batches_are_shown(rt: HostRuntime) {
    expect_replies(&rt, Hold::Question, b"ask 1 0 1\n", &[b"0=1 1=1\n"]);
    expect_replies(
        &rt,
        Hold::Question,
        b"ask 1 0 1\nask 2 1\nask 1 0\nask 1 1 0\n",
        &[b"0=1 1=1\nreader 1 1=1 1=1\nreader 2 0=1\nreader 3 1=1 0=1\n"],
    );
}

#[test]
fn a_reader_looks_anew_at_the_same_vertex(rt: HostRuntime) {
    expect_replies(&rt, Hold::Both, b"ask 2 0\n", &[b"0=0 0=1\n"]);
}

#[test]
fn a_batch_is_shown_before_it_is_told(rt: HostRuntime) {
    let gate = Holds::new(Hold::Publication);
    gate.replied.add(1);
    let input = two_groups(&rt, b"ask 1 0 1\n");
    // The head is two writes, and the third is the first line of the batch.
    let (ended, sink) = run_failing(&rt, &gate, 1, input.as_slice(), &[3]);
    assert!(rt; matches!(ended, Err(SessionFault::WriteFault)));
    assert!(rt; sink.bytes() == b"kcore-run 1\nvertices 6\n".as_slice());
    assert!(rt; gate.published.get() == 2);
}

// Two sums, over questions and over replies: 1 for each, 100 for each place of a question, and 10,000 for each number
// of a reader.
#[derive(Default, Drop)]
struct Told {
    asking: Count,
    replied: Count,
    others: Count,
}

fn weight(reader: u32, ask: u32) -> u64 {
    1 + 100 * u64::from(ask) + 10_000 * u64::from(reader)
}

impl Gate for Told {
    fn at(&self, spot: Spot) {
        match spot {
            Spot::Asking { reader, ask } => self.asking.add(weight(reader, ask)),
            Spot::Replied { reader, ask } => self.replied.add(weight(reader, ask)),
            Spot::Piece { .. } | Spot::Publishing { .. } => self.others.add(1),
        };
    }
}

// Returns the replies to an agent with the number 2, which asks three times for vertices 4 and 0. No batch has changed
// the store yet.
fn replies_of_one(rt: &impl Bench, gate: &Told, store: &Store, writer: &mut Writer) -> Vec<Reply>
    requires table { writer.old.table ≡ store.now.table }
    requires vertices { store.now.vertices ≡ 5 }
{
    let asked = vec![in rt.alloc(); 4, 0].expect(rt, "memory");
    let ask = Ask {
        times: 3,
        vertices: Vertices::from_vec(asked),
    };
    let mut agent = Agent::open(rt.alloc(), 2, ask, store, writer).expect(rt, "memory");
    agent.run(gate, store);
    agent.close(store, writer)
}

const FOUR: Reply = Reply {
    vertex: 4,
    level: 0,
};

const ZERO: Reply = Reply {
    vertex: 0,
    level: 0,
};

const SIX: &[Reply] = &[FOUR, ZERO, FOUR, ZERO, FOUR, ZERO];

#[test]
fn an_agent_is_opened_run_and_closed(rt: HostRuntime) {
    let gate = Told::default();
    let (store, mut writer) = open_store(&rt, 5);
    let replies = replies_of_one(&rt, &gate, &store, &mut writer);
    assert!(rt; replies.as_slice() == SIX);
    // Six questions of reader 2: 6 + 100 * 15 + 10,000 * 2 * 6.
    assert!(rt; gate.asking.get() == 121_506 && gate.replied.get() == 121_506);
    assert!(rt; gate.others.get() == 0);
}
