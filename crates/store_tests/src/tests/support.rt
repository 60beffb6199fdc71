//! What the tests of several files share: items, texts, stores with trials, and counts for which a thread waits.
ghost use Rattle.std.specs.Prelude.{◌≡◌, ◌≤◌, ◌<◌};
ghost use Rattle.kc_graph.specs.declared.limits.TheConstants.{MAX_VERTICES};
ghost use Rattle.kc_store.specs.States.{opened};

use kc_graph::Item;
use kc_store::{Store, Writer};
use std::process::Abort;
use std::sync::atomic::AtomicU64;
use std::sync::atomic::Ordering::SeqCst;
use std::thread;
use std::thread::Threads;
use store_support::trial::Trial;
use test_support::random::Random;

// The means of a test: memory, threads, and the right to end itself.
pub(crate) trait Bench: Threads + Sync + Abort + AllocGlobal {}

impl<R: Threads + Sync + Abort + AllocGlobal> Bench for R {}

// How often a thread looks whether it may go on.
const TURNS: u64 = 10_000_000;

// A count that threads raise, and for which a thread may wait.
#[derive(Default, Drop)]
pub(crate) struct Count {
    count: AtomicU64,
}

impl Count {
    pub(crate) fn get(&self) -> u64 {
        self.count.load(SeqCst)
    }

    // Raises the count, and returns it.
    pub(crate) fn add(&self, number: u64) -> u64 {
        self.count.fetch_add(number, SeqCst).wrapping_add(number)
    }

    // Holds a thread until the count is `least` or more, for at most `TURNS` turns; then it tells that they ran out.
    pub(crate) fn wait(&self, least: u64, ran_out: &Count) {
        for _turn in 0..TURNS {
            if self.get() >= least {
                return;
            }
            thread::yield_now();
        }
        ran_out.add(1);
    }
}

// Puts bytes at the end of a text.
pub(crate) fn put(rt: &impl Bench, text: &mut Vec<u8>, part: &[u8]) {
    text.extend_from_slice(part).expect(rt, "memory");
}

// Puts bytes and a number at the end of a text.
pub(crate) fn put_number(rt: &impl Bench, text: &mut Vec<u8>, part: &[u8], number: u32) {
    let digits = format!(in rt.alloc(); "{number}").expect(rt, "memory");
    put(rt, text, part);
    put(rt, text, digits.as_bytes());
}

// Returns an item that inserts an edge for the sign `+`, deletes one for `-`, and isolates v for any other.
fn item(sign: u8, u: u32, v: u32) -> Item {
    match sign {
        b'+' => Item::Insert { u, v },
        b'-' => Item::Delete { u, v },
        _ => Item::Isolate { v },
    }
}

// Returns an item of this sign between vertices below n.
pub(crate) fn draw_item(random: &mut Random, sign: u8, n: u32) -> Item
    requires { 0 < n }
{
    let u = random.below(n);
    item(sign, u, random.below(n))
}

// Returns the items of a text such as `+01 -23 *05`: each is a sign and two vertices of one digit. `*` isolates the
// second one.
pub(crate) fn items_of(rt: &impl Bench, text: &str) -> Vec<Item> {
    let mut items = Vec::new(rt.alloc());
    for word in text.as_bytes().split(|b| *b == b' ') {
        let &[sign, u, v] = word else {
            panic!(rt; "{text}");
        };
        assert!(rt; matches!(sign, b'+' | b'-' | b'*'));
        let u = u32::from(u.wrapping_sub(b'0'));
        let v = u32::from(v.wrapping_sub(b'0'));
        items.push(item(sign, u, v)).expect(rt, "memory");
    }
    items
}

// Returns a store for n vertices, which was just opened.
pub(crate) fn open_store(rt: &impl Bench, n: u32) -> (Store, Writer)
    requires { (1 ≤ n) × (n ≤ MAX_VERTICES) }
    ensures vertices { result.0.vertices ≡ n }
    ensures writer { result.1 ≡ record { table = result.0.table; state = opened n 0 } }
{
    Store::open(rt.alloc(), n, 0).expect(rt, "memory")
}

// Returns an engine beside a store that was just opened.
pub(crate) fn trial_of<'a>(
    rt: &impl Bench,
    n: u32,
    workers: u32,
    store: &'a Store,
    writer: Writer,
) -> Trial<'a>
    requires vertices { (1 ≤ n) × (n ≤ MAX_VERTICES) }
    requires workers { (1 ≤ workers) × (workers ≤ 64) }
    requires writer { writer ≡ record { table = store.now.table; state = opened n 0 } }
{
    Trial::open(rt.alloc(), n, workers, store, writer).expect(rt, "memory")
}
