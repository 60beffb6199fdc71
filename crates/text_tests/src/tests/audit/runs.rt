// Runs whose verdicts were worked out by hand, and small runs beside a plain search over all points.

use crate::tests::audit::{put_verdict, verdict_of};
use crate::tests::support::{Bench, check};
use kc_audit::{AuditVerdict, GroupLine, GroupLines, Readers, RunText};
use kc_history::{Replies, Reply};
use test_support::random::Random;

// Returns the vertex and the level of a word such as `4:1`, of one digit each.
fn reply_of(rt: &impl Bench, word: &str) -> Reply {
    let &[vertex, b':', level] = word.as_bytes() else {
        panic!(rt; "{word}");
    };
    let vertex = u32::from(vertex.wrapping_sub(b'0'));
    let level = u16::from(level.wrapping_sub(b'0'));
    Reply { vertex, level }
}

fn replies_of(rt: &impl Bench, words: &str) -> Replies {
    let mut replies = Vec::new(rt.alloc());
    for word in words.split_whitespace() {
        replies.push(reply_of(rt, word)).expect(rt, "memory");
    }
    Replies::from_vec(replies)
}

fn push_group(rt: &impl Bench, groups: &mut GroupLines, phase: u32, members: Replies) {
    let line = GroupLine {
        phase,
        label: 5,
        members,
    };
    groups.push(&line).expect(rt, "memory");
}

// Returns groups, one in a phase. A `/` stands between two of them, as between readers.
fn groups_of(rt: &impl Bench, text: &str) -> GroupLines {
    let mut groups = GroupLines::new(rt.alloc());
    let mut phase = 0u32;
    for words in text.split('/') {
        phase = phase.saturating_add(1);
        push_group(rt, &mut groups, phase, replies_of(rt, words));
    }
    groups
}

fn readers_of(rt: &impl Bench, text: &str) -> Readers {
    let mut readers = Readers::new(rt.alloc());
    for words in text.split('/') {
        readers.push(replies_of(rt, words)).expect(rt, "memory");
    }
    readers
}

fn run_of(rt: &impl Bench, vertices: u32, groups: &str, readers: &str) -> RunText {
    RunText {
        vertices,
        groups: groups_of(rt, groups),
        readers: readers_of(rt, readers),
    }
}

// Two groups, and four that move vertex 0 up and down.
const TWO: &str = "0:1 1:1/2:1 3:1";

const BACK: &str = "0:1 1:1/0:2/0:1 3:1/0:0";

// Groups, readers, and the verdict.
const VERDICTS: &[(&str, &str, &str)] = &[
    ("", "", "explained"),
    ("", "5:0/5:1", "1 ask 1"),
    (TWO, "0:1 1:0", "0 ask 2"),
    (TWO, "0:0 3:0 1:1 3:1", "explained"),
    (TWO, "0:0 1:1", "explained"),
    (TWO, "0:0 0:0 1:1 2:0 2:1 0:1", "explained"),
    (TWO, "2:1 0:0", "0 ask 2"),
    (TWO, "4:0 5:0 4:1", "0 ask 3"),
    (TWO, "0:2", "0 ask 1"),
    (TWO, "1:1 1:1//3:1 1:0/9:9", "2 ask 2"),
    (BACK, "0:0 0:1 0:2 0:1 0:0", "explained"),
    (BACK, "0:0 0:2 3:0 0:0 0:1", "0 ask 5"),
    (BACK, "3:1 0:2", "0 ask 2"),
    (BACK, "0:2/0:2 3:0/3:1/0:2 0:2 0:1 3:0", "3 ask 4"),
    ("0:1 0:2", "0:2/0:1", "1 ask 1"),
];

fn told(rt: &impl Bench, groups: &str, readers: &str) -> Vec<u8> {
    let verdict = verdict_of(rt, &run_of(rt, 10, groups, readers));
    let mut out = Vec::new(rt.alloc());
    put_verdict(rt, &mut out, verdict);
    out
}

#[test]
fn verdicts(rt: HostRuntime) {
    for (groups, readers, want) in VERDICTS {
        check(&rt, readers, &told(&rt, groups, readers), want);
    }
}

// Returns whether line i of the groups has this phase, the label 5 and these members.
fn is_line(groups: &GroupLines, i: usize, phase: u32, members: &Replies) -> bool {
    i < groups.len()
        && groups.phase(i) == phase
        && groups.label(i) == 5
        && groups.members(i) == members.as_slice()
}

// Returns whether a run has the groups of `0:1 1:1//3:2` and one reader.
fn has_three_and_one(rt: &impl Bench, run: &RunText) -> bool {
    let (groups, readers) = (&run.groups, &run.readers);
    for (i, phase, words) in [(0, 1, "0:1 1:1"), (1, 2, ""), (2, 3, "3:2")] {
        if !is_line(groups, i, phase, &replies_of(rt, words)) {
            return false;
        }
    }
    groups.len() == 3 && readers.len() == 1
}

#[test]
fn group_lines(rt: HostRuntime) {
    assert!(rt; has_three_and_one(&rt, &run_of(&rt, 10, "0:1 1:1//3:2", "0:1")));
    assert!(rt; GroupLines::new(rt.alloc()).len() == 0);
    assert!(rt; Readers::new(rt.alloc()).is_empty());
}

// The number of vertices, groups, readers, and whether the run can be audited.
const RUNS: &[(u32, &str, &str, bool)] = &[
    (6, "0:1 1:1//3:2", "0:1", true),
    (4, "0:1 1:1//3:2", "0:1", true),
    (3, "0:1 1:1//3:2", "0:1", false),
    (1, "0:1 1:1//3:2", "0:1", false),
    (2, "", "0:1/0:0 1:0", true),
    (1, "", "0:1/0:0 1:0", false),
    (1, "", "", true),
];

#[test]
fn auditable_runs(rt: HostRuntime) {
    for (vertices, groups, readers, want) in RUNS {
        assert!(rt; run_of(&rt, *vertices, groups, readers).is_auditable() == *want);
    }
}

// Returns up to `most` pairs of a vertex below 3 and a level below 3.
fn random_replies(rt: &impl Bench, random: &mut Random, most: u32) -> Replies {
    let mut replies = Vec::new(rt.alloc());
    for _ in 0..random.below(most.saturating_add(1)) {
        let vertex = random.below(3);
        let level = random.below(3) as u16;
        replies.push(Reply { vertex, level }).expect(rt, "memory");
    }
    Replies::from_vec(replies)
}

fn random_run(rt: &impl Bench, random: &mut Random) -> RunText {
    let mut run = run_of(rt, 3, "", "");
    for phase in 0..random.below(7) {
        push_group(rt, &mut run.groups, phase, random_replies(rt, random, 2));
    }
    for _ in 0..random.below(4) {
        let replies = random_replies(rt, random, 5);
        run.readers.push(replies).expect(rt, "memory");
    }
    run
}

// Returns the level of a vertex at point p.
fn level_at(groups: &GroupLines, p: usize, vertex: u32) -> u16 {
    let mut level = 0;
    for i in 0..groups.len().min(p) {
        for member in groups.members(i) {
            if member.vertex == vertex {
                level = member.level;
            }
        }
    }
    level
}

// Turns the points that one reply may have into those that the next may have. Returns whether there are some.
fn narrow(groups: &GroupLines, may_be: &mut [bool], reply: &Reply) -> bool {
    let mut before = false;
    let mut some = false;
    for p in 0..may_be.len() {
        before |= may_be[p];
        may_be[p] = before && level_at(groups, p, reply.vertex) == reply.level;
        some |= may_be[p];
    }
    some
}

// Returns the number of the first reply up to which the replies aren't explained, counted from 1. It tries all points
// that each reply may have. At first each point is true in `may_be`.
fn first_unexplained(groups: &GroupLines, may_be: &mut [bool], replies: &[Reply]) -> Option<u32> {
    let mut ask = 0u32;
    for reply in replies {
        ask = ask.saturating_add(1);
        if !narrow(groups, may_be, reply) {
            return Some(ask);
        }
    }
    None
}

// Returns the verdict of the plain search: the first reply that is unexplained, of the first reader with one.
fn plain_verdict(rt: &impl Bench, run: &RunText) -> AuditVerdict {
    let points = run.groups.len().saturating_add(1);
    let mut reader = 0u32;
    for replies in run.readers.as_slice() {
        let mut may_be = vec![in rt.alloc(); true; points].expect(rt, "memory");
        let first = first_unexplained(&run.groups, &mut may_be, replies.as_slice());
        drop(may_be);
        if let Some(ask) = first {
            return AuditVerdict::Unexplained { reader, ask };
        }
        reader = reader.saturating_add(1);
    }
    AuditVerdict::Explained
}

// Returns whether a run is explained. Its verdict has to be that of the plain search.
fn is_explained(rt: &impl Bench, run: &RunText) -> bool {
    let verdict = verdict_of(rt, run);
    assert!(rt; verdict == plain_verdict(rt, run));
    verdict == AuditVerdict::Explained
}

#[test]
fn as_a_plain_search(rt: HostRuntime) {
    let mut random = Random::new(0);
    let mut explained = 0u32;
    for _ in 0..4000 {
        if is_explained(&rt, &random_run(&rt, &mut random)) {
            explained = explained.saturating_add(1);
        }
    }
    assert!(rt; 1000 < explained && explained < 3000);
}
