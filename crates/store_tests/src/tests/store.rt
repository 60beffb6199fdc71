//! Readers of a store in which an engine shows batches. What a reader may read was worked out by hand, or is found by a
//! plain walk through the moves.
ghost use Rattle.std.specs.Thread.{IsSync};

use crate::tests::support::{Bench, Count, draw_item, items_of, open_store, trial_of};
use kc_engine::BatchPlan;
use kc_graph::Item;
use kc_history::Entry;
use kc_rounds::{Gate, OpenGate, Spot};
use std::thread;
use std::thread::Threads;
use store_support::readers::Reader;
use store_support::trial::Trial;
use test_support::random::Random;

// Lets a writer and a reader take turns: at each spot the writer waits until the reader has read all vertices.
#[derive(Default, Drop)]
struct Turns {
    // At how many spots the writer has been.
    told: Count,
    // At how many of them the reader has read.
    read: Count,
    ran_out: Count,
}

impl Gate for Turns {
    fn at(&self, _spot: Spot) {
        self.read.wait(self.told.add(1), &self.ran_out);
    }
}

// Returns whether the reader reads these levels of the vertices from 0 on.
fn reads(reader: &mut Reader<'_>, levels: &[u16]) -> bool {
    let mut v = 0u32;
    for level in levels {
        if reader.read(v) != Some(*level) {
            return false;
        }
        v = v.wrapping_add(1);
    }
    true
}

// Reads once at each spot. Returns whether the levels were those of the spot's row each time.
fn read_rows(turns: &Turns, reader: &mut Reader<'_>, rows: &[[u16; 5]]) -> bool {
    let mut right = true;
    for row in rows {
        turns
            .told
            .wait(turns.read.get().wrapping_add(1), &turns.ran_out);
        right &= reads(reader, row.as_slice());
        turns.read.add(1);
    }
    right
}

// Shows the batches of these texts, and says whether each could be.
fn show_all<R: Bench>(rt: &R, turns: &Turns, trial: &mut Trial<'_>, texts: &[&str]) -> bool {
    let mut shown = true;
    for text in texts {
        let items = items_of(rt, text);
        shown &= trial
            .apply(rt, rt.alloc(), turns, items.as_slice())
            .is_some();
    }
    shown
}

// Lets the writer show the batches while the reader reads. Returns whether they were shown, and whether the reader read
// its rows.
fn take_turns<R: Bench>(
    rt: &R,
    turns: &Turns,
    trial: &mut Trial<'_>,
    texts: &[&str],
    reader: &mut Reader<'_>,
    rows: &[[u16; 5]],
) -> (bool, bool) {
    thread::join_mut(
        rt,
        &mut ||
            requires { IsSync R.row }
        { show_all(rt, turns, trial, texts) },
        &mut || { read_rows(turns, reader, rows) },
    )
}

// Returns whether a reader that is there before the batches reads these rows, one at each spot. The spots are before a
// group is marked, before it is published, and before it is cleared. At the end the reader reads the levels of the
// engine.
fn sees_rows<R: Bench>(rt: &R, trial: &mut Trial<'_>, texts: &[&str], rows: &[[u16; 5]]) -> bool {
    let mut reader = trial.reader();
    let turns = Turns::default();
    take_turns(rt, &turns, trial, texts, &mut reader, rows) == (true, true)
        && turns.ran_out.get() == 0
        && turns.told.get() == rows.len() as u64
        && reads(&mut reader, trial.engine().levels().as_slice())
}

fn expect_rows<R: Bench>(rt: &R, texts: &[&str], rows: &[[u16; 5]]) {
    let (store, writer) = open_store(rt, 5);
    let mut trial = trial_of(rt, 5, 1, &store, writer);
    assert!(rt; sees_rows(rt, &mut trial, texts, rows));
    drop(trial);
}

const ROWS_OF_TWO_GROUPS: &[[u16; 5]] = &[
    [0, 0, 0, 0, 0],
    [0, 0, 0, 0, 0],
    [1, 1, 0, 0, 0],
    [1, 1, 0, 0, 0],
    [1, 1, 0, 0, 0],
    [1, 1, 1, 1, 0],
];

// Two groups rise one after the other.
#[test]
fn each_group_shows_at_once(rt: HostRuntime) {
    expect_rows(&rt, &["+01 +23"], ROWS_OF_TWO_GROUPS);
}

const ROWS_OF_THREE_PHASES: &[[u16; 5]] = &[
    [0, 0, 0, 0, 0],
    [0, 0, 0, 0, 0],
    [1, 1, 0, 0, 0],
    [1, 1, 0, 0, 0],
    [1, 1, 0, 0, 0],
    [0, 0, 0, 0, 0],
    [0, 0, 0, 0, 0],
    [0, 0, 0, 0, 0],
    [1, 0, 1, 0, 0],
];

const THREE_PHASES: &[&str] = &["+01", "-01", "+02"];

// Three phases publish the label 0. A marked vertex is on its old level although the label was published before. It
// is on its new level from the publication on.
#[test]
fn a_label_is_published_again(rt: HostRuntime) {
    expect_rows(&rt, THREE_PHASES, ROWS_OF_THREE_PHASES);
}

const VERTICES: u32 = 24;

// The number of vertices, for places in lists.
const WIDTH: usize = VERTICES as usize;

const BATCHES: u32 = 2_000;

// How many of them are shown before the writer and the readers meet.
const FIRST_BATCHES: u32 = 20;

const READERS: u64 = 4;

const READS: usize = 600_000;

// A meeting of writer and readers. The readers begin when the first batches are shown. The writer goes on when each
// of them has read all vertices.
#[derive(Default, Drop)]
struct Meeting {
    // 1 if the first batches are shown.
    shown: Count,
    // How many readers have read all vertices.
    read: Count,
    ran_out: Count,
}

// A reader, and what it reads: the vertices in order, over and over.
#[derive(Drop)]
struct Asker<'a> {
    reader: Reader<'a>,
    levels: Vec<u16>,
}

impl Asker<'_> {
    fn run(&mut self, meeting: &Meeting) {
        meeting.shown.wait(1, &meeting.ran_out);
        for i in 0..self.levels.len() {
            if i == WIDTH {
                meeting.read.add(1);
            }
            self.levels[i] = self.reader.read((i % WIDTH) as u32).unwrap_or(u16::MAX);
        }
    }
}

// Readers that have read nothing.
fn make_askers<'a>(rt: &impl Bench, trial: &mut Trial<'a>) -> Vec<Asker<'a>> {
    let mut askers = Vec::new(rt.alloc());
    for _reader in 0..READERS {
        let levels = vec![in rt.alloc(); 0u16; READS].expect(rt, "memory");
        let reader = trial.reader();
        askers.push(Asker { reader, levels }).expect(rt, "memory");
    }
    askers
}

fn run_askers<R: Threads + Sync>(rt: &R, meeting: &Meeting, askers: &mut [Asker<'_>]) {
    thread::for_each_mut(
        rt,
        askers,
        READERS as usize,
        &|_, asker: &mut Asker<'_>| { asker.run(meeting) },
    );
}

// Returns up to six insertions and deletions.
fn draw_items(rt: &impl Bench, random: &mut Random) -> Vec<Item> {
    let mut items = Vec::new(rt.alloc());
    for _ in 0..6 {
        let sign = if random.below(2) == 0 { b'+' } else { b'-' };
        items
            .push(draw_item(random, sign, VERTICES))
            .expect(rt, "memory");
    }
    items
}

// Shows a batch, and gives its plan.
fn show<R: Bench>(rt: &R, random: &mut Random, trial: &mut Trial<'_>) -> BatchPlan {
    let items = draw_items(rt, random);
    let plan = trial.apply(rt, rt.alloc(), &OpenGate::new(), items.as_slice());
    plan.expect(rt, "a batch isn't shown")
}

// Shows the batches, and gives their plans; after the first ones it meets the readers.
fn show_batches<R: Bench>(rt: &R, meeting: &Meeting, trial: &mut Trial<'_>) -> Vec<BatchPlan> {
    let mut random = Random::new(20);
    let mut plans = Vec::new(rt.alloc());
    for k in 0..BATCHES {
        if k == FIRST_BATCHES {
            meeting.shown.add(1);
            meeting.read.wait(READERS, &meeting.ran_out);
        }
        plans
            .push(show(rt, &mut random, trial))
            .expect(rt, "memory");
    }
    plans
}

// Lets the writer show batches while the readers read.
fn show_beside<R: Bench>(
    rt: &R,
    meeting: &Meeting,
    trial: &mut Trial<'_>,
    askers: &mut [Asker<'_>],
) -> Vec<BatchPlan> {
    thread::join_mut(
        rt,
        &mut ||
            requires { IsSync R.row }
        { show_batches(rt, meeting, trial) },
        &mut ||
            requires { IsSync R.row }
        { run_askers(rt, meeting, askers) },
    )
    .0
}

// Puts the vertices of a group on their new levels, and adds the row of all levels.
fn put_row(rt: &impl Bench, rows: &mut Vec<u16>, row: &mut [u16], group: &Entry) {
    for m in group.moves.as_slice() {
        let v = m.vertex as usize;
        assert!(rt; v < row.len() && row[v] == m.old);
        row[v] = m.new;
    }
    rows.extend_from_slice(row).expect(rt, "memory");
}

// Adds the rows after each group of a plan.
fn put_rows(rt: &impl Bench, rows: &mut Vec<u16>, row: &mut [u16], plan: &BatchPlan) {
    for phase in plan.phases.as_slice() {
        for group in phase.groups.as_slice() {
            put_row(rt, rows, row, group);
        }
    }
}

// Returns the levels after each group of these plans, row by row, from a row of zeros on; beside them the last row.
fn rows_of(rt: &impl Bench, plans: &[BatchPlan]) -> (Vec<u16>, Vec<u16>) {
    let mut row = vec![in rt.alloc(); 0u16; WIDTH].expect(rt, "memory");
    let mut rows = vec![in rt.alloc(); 0u16; WIDTH].expect(rt, "memory");
    for plan in plans {
        put_rows(rt, &mut rows, row.as_mut_slice(), plan);
    }
    (rows, row)
}

// Returns the first row from this one on in which v is on this level.
fn reach(rows: &[u16], from: usize, v: usize, level: u16) -> Option<usize> {
    for at in from..rows.len() / WIDTH {
        if rows.get(at.wrapping_mul(WIDTH).wrapping_add(v)) == Some(&level) {
            return Some(at);
        }
    }
    None
}

// Returns whether the answers are levels of the rows, each of one that isn't before that of the answer before it.
fn are_explained(rows: &[u16], answers: &[u16]) -> bool {
    let mut at = 0;
    for i in 0..answers.len() {
        match reach(rows, at, i % WIDTH, answers[i]) {
            Some(next) => at = next,
            None => return false,
        }
    }
    true
}

// Returns whether the answers of each reader are explained, and the first of them are the row after the first batches.
// The levels before or after all batches would be explained as well.
fn have_looked(rows: &[u16], first: &[u16], levels: &[u16], askers: &[Asker<'_>]) -> bool {
    for asker in askers {
        let answers = asker.levels.as_slice();
        if !are_explained(rows, answers)
            || !answers.starts_with(first)
            || answers.starts_with([0; WIDTH].as_slice())
            || answers.starts_with(levels)
        {
            return false;
        }
    }
    true
}

// Returns whether the plans lead to these levels, and what the readers read is explained by the plans.
fn are_right(rt: &impl Bench, plans: &[BatchPlan], levels: &[u16], askers: &[Asker<'_>]) -> bool {
    assert!(rt; plans.len() >= FIRST_BATCHES as usize);
    let (_rows, first) = rows_of(rt, &plans[..FIRST_BATCHES as usize]);
    let (rows, last) = rows_of(rt, plans);
    last.as_slice() == levels && have_looked(rows.as_slice(), first.as_slice(), levels, askers)
}

// Returns whether readers that read beside the writer see points of its history.
fn history_is_seen<R: Bench>(rt: &R, trial: &mut Trial<'_>) -> bool {
    let meeting = Meeting::default();
    let mut askers = make_askers(rt, trial);
    let plans = show_beside(rt, &meeting, trial, askers.as_mut_slice());
    let levels = trial.engine().levels().as_slice();
    let seen = are_right(rt, plans.as_slice(), levels, askers.as_slice());
    drop(plans);
    drop(askers);
    seen && meeting.ran_out.get() == 0
}

#[test]
fn readers_see_points_of_the_history(rt: HostRuntime) {
    let (store, writer) = open_store(&rt, VERTICES);
    let mut trial = trial_of(&rt, VERTICES, 1, &store, writer);
    assert!(rt; history_is_seen(&rt, &mut trial));
    drop(trial);
}
