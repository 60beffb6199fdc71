// Long batches, whose lines several workers share. Each line has its own two numbers, so a lost, doubled or moved item
// shows.

use crate::tests::support::{Bench, LIMITS, input_of, put};
use kc_batch::{Ahead, Next, Rules, await_batch};
use kc_graph::{Crew, Item};
use kc_levels::Profile;
use kc_text::{NullSink, Reason};
use std::thread::Threads;

// The lines within a batch, of 18 bytes each. A reader takes 64, 128 and 256 KiB before it has all the others at once.
// Of those it walks 64 KiB alone. Two workers share the rest in two parts, three in three, and more in four.
const LINES: u32 = 50_000;

// The place of a line of another kind, in the last part.
const PLACE: u32 = 45_000;

// Returns the numbers of the line at a place, which no other line has.
fn ends_at(place: u32) -> (u32, u32) {
    (place % 1000, 1000 + place / 1000)
}

// Returns an input: a `batch` line, the lines of the items with `other` in place of that at `PLACE`, and `last`.
fn text_of(rt: &impl Bench, other: &str, last: &str) -> Vec<u8> {
    let alloc = rt.alloc();
    let mut text = Vec::with_capacity(alloc, 1_000_000).expect(rt, "memory");
    put(rt, &mut text, b"batch\n");
    for place in 0..LINES {
        if place == PLACE {
            put(rt, &mut text, other.as_bytes());
        } else {
            let (u, v) = ends_at(place);
            let line = format!(in alloc; "{u:08} {v:08}\n").expect(rt, "memory");
            put(rt, &mut text, line.as_bytes());
        }
    }
    put(rt, &mut text, last.as_bytes());
    text
}

// Returns the batch that this number of workers reads, of at most `most` items.
fn told<R: Bench + Threads + Sync>(rt: &R, text: &[u8], workers: u32, most: u32) -> Next {
    let alloc = rt.alloc();
    let mut input = input_of(rt, text, LIMITS.1, &[], LIMITS);
    let rules = Rules {
        n: 2000,
        profile: Profile::One,
        item_limit: most,
    };
    let crew = Crew::new(rt, alloc, workers);
    let (reader, source) = (&mut input.reader, &mut input.source);
    let ahead = Ahead::new(alloc, rules, false);
    let next = await_batch(&crew, reader, source, &mut NullSink::new(), ahead);
    next.expect(rt, "memory")
}

// Returns whether these are the items of all lines but that at `PLACE`, in their order.
fn are_others(items: &[Item]) -> bool {
    let mut place = 0;
    for item in items {
        if place == PLACE {
            place = PLACE + 1;
        }
        let (u, v) = ends_at(place);
        if place >= LINES || *item != (Item::Insert { u, v }) {
            return false;
        }
        place += 1;
    }
    place == LINES
}

// Returns whether this is a batch of all these items.
fn is_whole(next: &Next) -> bool {
    match next {
        Next::Items(batch) => batch.line == LINES + 2 && are_others(batch.items.as_slice()),
        _ => false,
    }
}

// Returns whether this is a batch that is refused at a line for a reason.
fn is_refused(next: &Next, number: u32, of: Reason) -> bool {
    match next {
        Next::Refused { line, reason } => *line == number && *reason == of,
        _ => false,
    }
}

// The numbers of workers that read each input.
const WORKERS: [u32; 5] = [1, 2, 3, 4, 64];

// A comment stands among the lines.
#[test]
fn workers_read_the_same_items(rt: HostRuntime) {
    for last in ["end\n", "end"] {
        let text = text_of(&rt, "# no item\n", last);
        for workers in WORKERS {
            let next = told(&rt, &text, workers, LINES);
            assert!(rt; is_whole(&next));
        }
    }
}

// Another line, the last line, the most items, and the first fault: its line and its reason.
const FAULTS: &[(&str, &str, u32, u32, Reason)] = &[
    ("0\n", "end\n", LINES, PLACE + 2, Reason::BadLine),
    ("0 2000\n", "end\n", LINES, PLACE + 2, Reason::BadVertex),
    ("0 1\n", "end\n", PLACE, PLACE + 2, Reason::TooMany),
    ("#\n", "0 1", LINES, LINES + 3, Reason::Truncated),
];

#[test]
fn workers_meet_the_same_fault(rt: HostRuntime) {
    for (other, last, most, number, reason) in FAULTS {
        let text = text_of(&rt, other, last);
        for workers in WORKERS {
            let next = told(&rt, &text, workers, *most);
            assert!(rt; is_refused(&next, *number, *reason));
        }
    }
}
