//! Loads and reads of vertices in an order by chance.
ghost use Rattle.std.specs.Prelude.{◌≡◌, ◌≤◌};

use kc_store::{Pass, Store, Writer};
use std::alloc::{AllocError, Global};
use std::thread;
use std::thread::Threads;

// The most threads that load or read at once.
const MOST_THREADS: usize = 64;

/// Returns `count` vertices below n, drawn by chance; the same at each call.
pub fn by_chance(alloc: Global, n: u32, count: u32) -> Result<Vec<u32>, AllocError>
    requires { 1 ≤ n }
{
    let mut state = 20u64;
    let mut order = Vec::new(alloc);
    for _turn in 0..count {
        state = state
            .wrapping_mul(6_364_136_223_846_793_005)
            .wrapping_add(1);
        order.push((state >> 33) as u32 % n)?;
    }
    Ok(order)
}

// Returns the sum of the words of the vertices in this order, where the word of a vertex v is at place v + 1.
fn sum_of(words: &[u64], order: &[u32]) -> u64 {
    let mut sum = 0u64;
    for v in order {
        let place = *v as usize + 1;
        if place < words.len() {
            sum = sum.wrapping_add(words[place]);
        }
    }
    sum
}

/// Loads the words of the vertices in this order, in a thread for each of the sums. Sets each sum to the sum of the
/// words.
pub fn run_loads<R: Threads + Sync>(rt: &R, words: &[u64], order: &[u32], sums: &mut [u64]) {
    thread::for_each_mut(
        rt,
        sums,
        MOST_THREADS,
        &|_, sum: &mut u64| { *sum = sum_of(words, order) },
    );
}

// Reads the levels of the vertices in this order, and returns their sum modulo 2^64. Leaves out vertices that the
// store doesn't have.
fn sum_of_levels(store: &Store, pass: &mut Pass, order: &[u32]) -> u64
    requires { pass.old.table ≡ store.now.table }
    ensures { pass.new.table ≡ pass.old.table }
{
    let n = store.vertices();
    let mut sum = 0u64;
    for v in order {
        if *v < n {
            let level = store.read(pass, *v);
            sum = sum.wrapping_add(u64::from(level));
        }
    }
    sum
}

/// A thread's reader.
#[derive(Drop)]
pub struct Reader<'a> {
    store: &'a Store,
    pass: Pass,
    /// The sum of the levels that were read.
    pub sum: u64,
    ghost of: { pass.table ≡ store.now.table },
}

impl<'a> Reader<'a> {
    // Makes a reader that has read nothing, and has seen the writer's history.
    fn new(store: &'a Store, writer: &mut Writer) -> Reader<'a>
        requires { writer.old.table ≡ store.now.table }
        ensures { writer.new ≡ writer.old }
    {
        Reader {
            store,
            pass: writer.pass(store),
            sum: 0,
        }
    }

    // Reads the levels of the vertices in this order.
    fn read_all(&mut self, order: &[u32]) {
        // The sum is set once: readers lie side by side in memory, and a processor that writes takes the line from the
        // others.
        self.sum = sum_of_levels(self.store, &mut self.pass, order);
    }
}

/// Makes readers that have read nothing, and have seen the writer's history.
pub fn make_readers<'a>(
    alloc: Global,
    store: &'a Store,
    writer: &mut Writer,
    count: u32,
) -> Result<Vec<Reader<'a>>, AllocError>
    requires { writer.old.table ≡ store.now.table }
    ensures { writer.new ≡ writer.old }
{
    let mut readers = Vec::new(alloc);
    for _turn in 0..count {
        readers.push(Reader::new(store, writer))?;
    }
    Ok(readers)
}

/// Lets each of the readers read, in a thread of its own.
pub fn run_readers<R: Threads + Sync>(rt: &R, order: &[u32], readers: &mut [Reader<'_>]) {
    thread::for_each_mut(
        rt,
        readers,
        MOST_THREADS,
        &|_, reader: &mut Reader<'_>| { reader.read_all(order) },
    );
}
