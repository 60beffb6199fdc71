//! Readers of sessions: that they run at once and follow the batches, and for what they are given replies. And how many
//! workers a batch has beside them.

use crate::tests::session::{run, run_settled};
use crate::tests::support::{Bench, Count, put, put_number};
use kc_rounds::{Gate, OpenGate, Spot};
use kc_text::read_number;
use std::thread;
use std::time::{Clock, Duration};
use test_support::gates::Greatest;

// Holds the first question of each reader until the last reader puts its own.
#[derive(Default, Drop)]
struct Meeting {
    here: Count,
    // 1 if the last reader has put its question.
    all_here: Count,
    ran_out: Count,
}

// A meeting of this number of readers.
#[derive(Drop)]
struct Party {
    readers: u64,
    meeting: Meeting,
}

impl Gate for Party {
    fn at(&self, spot: Spot) {
        let Spot::Asking { ask: 0, .. } = spot else {
            return;
        };
        let meeting = &self.meeting;
        if meeting.here.add(1) == self.readers {
            meeting.all_here.add(1);
        }
        meeting.all_here.wait(1, &meeting.ran_out);
    }
}

// Returns whether readers that ask twice for a vertex, one for vertex 0 and `others` for vertex 1, ask at once.
fn run_at_once(rt: &impl Bench, others: u64) -> bool {
    let gate = Party {
        readers: others.wrapping_add(1),
        meeting: Meeting::default(),
    };
    let mut input = Vec::new(rt.alloc());
    put(rt, &mut input, b"kcore 1\nvertices 2\nask 2 0\n");
    for _reader in 0..others {
        put(rt, &mut input, b"ask 2 1\n");
    }
    put(rt, &mut input, b"batch\n0 1\nend\n");
    let _ended = run(rt, &gate, 1, input.as_slice());
    gate.meeting.all_here.get() == 1 && gate.meeting.ran_out.get() == 0
}

// Two readers, and as many as an input may have.
#[test]
fn readers_run_at_once(rt: HostRuntime) {
    assert!(rt; run_at_once(&rt, 1) && run_at_once(&rt, 63));
}

// A reader that asks as often as it may, and two batches of one group each. They take its vertex to level 1, and then
// to level 2.
const TWO_BATCHES: &[u8] =
    b"kcore 1\nvertices 4\nask 65536 0\nbatch\n0 1\nend\nbatch\n0 2\n0 3\nend\n";

// A reader is in a rush if it puts this question before the second batch is shown. A reader that looks between its
// repetitions takes half a minute to get so far, if no batch is shown meanwhile.
const RUSHED: u32 = 8_192;

// For how many milliseconds the second batch is held. A reader in a rush puts that many questions in some of them.
const SHORT: u32 = 200;

// Holds the first batch until it hears of the first reply. Holds the second one until it hears of question `RUSHED`,
// for at most `SHORT` milliseconds.
#[derive(Drop)]
struct Lagging<'a, R> {
    rt: &'a R,
    replied: Count,
    ran_out: Count,
    // 1 if the gate has heard of question `RUSHED`.
    far: Count,
    // 1 if that was before the second batch was published.
    rushed: Count,
}

impl<R: Clock> Lagging<'_, R> {
    fn hold_second(&self) {
        for _turn in 0..SHORT {
            if self.far.get() > 0 {
                self.rushed.add(1);
                return;
            }
            thread::sleep(self.rt, Duration::from_millis(1));
        }
    }
}

impl<R: Clock> Gate for Lagging<'_, R> {
    fn at(&self, spot: Spot) {
        match spot {
            Spot::Publishing { phase: 1, .. } => self.replied.wait(1, &self.ran_out),
            Spot::Publishing { .. } => self.hold_second(),
            Spot::Asking { ask: RUSHED, .. } => {
                self.far.add(1);
            }
            Spot::Asking { .. } => {}
            Spot::Replied { .. } => {
                self.replied.add(1);
            }
            Spot::Piece { .. } => {}
        }
    }
}

// Returns the replies in a text with one reader, with blanks between them.
fn replies_in(text: &[u8]) -> Option<&str> {
    let (_batches, rest) = str::from_utf8(text).ok()?.split_once("\nreader 0 ")?;
    let (replies, rest) = rest.split_once("\n")?;
    if rest.starts_with("vertex 0 ") && rest.split_once("reader 0 ").is_none() {
        Some(replies)
    } else {
        None
    }
}

// Returns whether the first reply of the reader is level 0, and the last one level 2.
fn has_followed(text: &[u8]) -> bool {
    match replies_in(text) {
        Some(replies) => replies.starts_with("0=0 ") && replies.ends_with(" 0=2"),
        None => false,
    }
}

// The reader has put few of its questions when the second batch is shown, and has its last reply from afterwards.
#[test]
fn a_reader_follows_the_batches(rt: HostRuntime) {
    let gate = Lagging {
        rt: &rt,
        replied: Count::default(),
        ran_out: Count::default(),
        far: Count::default(),
        rushed: Count::default(),
    };
    let (ended, sink) = run(&rt, &gate, 1, TWO_BATCHES);
    assert!(rt; gate.ran_out.get() == 0 && gate.rushed.get() == 0);
    assert!(rt; ended.replies == 65_536 && has_followed(sink.bytes()));
}

// Returns an input with a batch and one reader, which asks for these vertices.
fn with_ask(rt: &impl Bench, times: u32, vertices: &[u32]) -> Vec<u8> {
    let mut input = Vec::new(rt.alloc());
    put_number(rt, &mut input, b"kcore 1\nvertices 256\nask ", times);
    for v in vertices {
        put_number(rt, &mut input, b" ", *v);
    }
    put(rt, &mut input, b"\nbatch\n0 1\nend\n");
    input
}

// Returns whether a reply, as vertex and level, is for this vertex.
fn is_for(reply: &str, vertex: u32) -> bool {
    match reply.split_once("=") {
        Some((v, _level)) => read_number(v.as_bytes()) == Some(vertex),
        None => false,
    }
}

// Returns how many replies there are, if they are for these vertices, over and over.
fn count_for(replies: &str, vertices: &[u32]) -> Option<usize> {
    let mut told = 0usize;
    for reply in replies.split(' ') {
        if vertices.is_empty() || !is_for(reply, vertices[told % vertices.len()]) {
            return None;
        }
        told = told.wrapping_add(1);
    }
    Some(told)
}

// Returns whether the replies of a session are for what its ask asks for, one for one.
fn walks(rt: &impl Bench, times: u32, vertices: &[u32]) -> bool {
    let input = with_ask(rt, times, vertices);
    let (ended, sink) = run(rt, &OpenGate::new(), 2, input.as_slice());
    let wanted = (times as usize).saturating_mul(vertices.len());
    let replies = replies_in(sink.bytes()).unwrap_or("");
    ended.replies as usize == wanted && count_for(replies, vertices) == Some(wanted)
}

// How often a reader asks, and for what. The last one has as many questions as an ask may have.
const WALKS: &[(u32, &[u32])] = &[(1, &[3]), (3, &[4, 1]), (2, &[2, 2, 0, 2]), (65_536, &[1])];

#[test]
fn replies_are_in_the_order_of_a_plain_walk(rt: HostRuntime) {
    for (times, vertices) in WALKS {
        assert!(rt; walks(&rt, *times, vertices));
    }
    let mut all = Vec::new(rt.alloc());
    for v in 0..256 {
        all.push(255 - v).expect(&rt, "memory");
    }
    // As many questions as an ask may have, here too.
    assert!(rt; walks(&rt, 256, all.as_slice()));
}

// Returns an input with this head, whose batch joins 64 pairs: the first round has 128 candidates, so each worker gets
// a piece.
fn with_pairs(rt: &impl Bench, head: &[u8]) -> Vec<u8> {
    let mut input = Vec::new(rt.alloc());
    put(rt, &mut input, head);
    for v in 0..64 {
        put_number(rt, &mut input, b"", v);
        put_number(rt, &mut input, b" ", v + 64);
        put(rt, &mut input, b"\n");
    }
    put(rt, &mut input, b"end\n");
    input
}

// Returns whether the round with the most pieces has one for each worker, in a session.
fn runs_in_pieces(rt: &impl Bench, workers: u32, input: &[u8]) -> bool {
    let gate = Greatest::new();
    let _ended = run(rt, &gate, workers, input);
    gate.index().wrapping_add(1) == u64::from(workers)
}

// Returns what `runs_in_pieces` returns, but for batches that are settled.
fn settles_in_pieces(rt: &impl Bench, workers: u32, input: &[u8]) -> bool {
    let gate = Greatest::new();
    let _settled = run_settled(rt, &gate, workers, input);
    gate.index().wrapping_add(1) == u64::from(workers)
}

const WORKERS: &[u32] = &[1, 2, 3, 5, 64];

// Without readers, beside one, and where the batches are settled.
#[test]
fn a_first_round_has_a_piece_for_each_worker(rt: HostRuntime) {
    let unread = with_pairs(&rt, b"kcore 1\nvertices 128\nbatch\n");
    let read = with_pairs(&rt, b"kcore 1\nvertices 128\nask 1 0\nbatch\n");
    for workers in WORKERS {
        assert!(rt; runs_in_pieces(&rt, *workers, unread.as_slice()));
        assert!(rt; runs_in_pieces(&rt, *workers, read.as_slice()));
        assert!(rt; settles_in_pieces(&rt, *workers, unread.as_slice()));
    }
}
