//! Cleaning: the edges that the items of a batch take out of a graph and put in, and the counts of items that change
//! nothing.

ghost use Rattle.std.specs.Prelude.{◌≡◌, ◌<◌, ◌≤◌, ◌^◌, ◌+◌, [], false, length, All, IfOk, OnOk};
ghost use Rattle.std.specs.List.{list_any};
ghost use Rattle.kc_graph.specs.Cleaning.{IsInside, cleaned};
ghost use Rattle.kc_graph.specs.private.Keys.{is_isolation};
ghost use Rattle.kc_graph.specs.private.Walks.{followed};
ghost use Rattle.kc_graph.specs.Keys.{decided};

use crate::crew::Crew;
use crate::edge_lists::Edges;
use crate::graphs::Graph;
use crate::items::Item;
use crate::keys::Key;
use crate::later::walk_back;
use crate::limits::{MAX_ITEMS, MAX_VERTICES};
use crate::sorted_keys::sorted_keys;
use crate::walking::walk_by;
use std::alloc::{AllocError, Global};
use std::thread::Threads;

/// The net effect of the items of a batch on a graph (`cleaned`).
///
/// Of several items that touch the same two vertices the last decides.
#[derive(Drop)]
pub struct Cleaned {
    /// The edges that leave, ascending. Each is in the graph, and a deletion of it or an isolation of one of its
    /// vertices decides on it.
    pub removed: Edges,
    /// The edges that come in, ascending. None is in the graph, and an insertion decides on each.
    pub added: Edges,
    /// The number of loops: insertions and deletions between a vertex and itself. They ask for nothing.
    pub loops: u32,
    /// The number of repeats: other insertions and deletions whose two vertices a later item touches. They don't
    /// decide.
    pub repeats: u32,
    /// The number of items that change nothing and are neither loops nor repeats. These are insertions of edges that
    /// are there, deletions of edges that aren't, and isolations that decide on no edge.
    pub idle: u32,
}

impl Cleaned {
    /// Returns the net effect of this many loops, before any other item is taken in.
    pub fn of_loops(alloc: Global, loops: u32) -> Self
        ensures { result ≡ record { removed = []; added = []; loops = loops; repeats = 0; idle = 0 } }
    {
        Cleaned {
            removed: Edges::new(alloc),
            added: Edges::new(alloc),
            loops,
            repeats: 0,
            idle: 0,
        }
    }

    /// Adds the net effect of later items, which touch other pairs. Fails only if memory runs out.
    pub(crate) fn follow(&mut self, later: Cleaned) -> Result<(), AllocError>
        requires loops { self.old.loops + later.loops ≤ MAX_ITEMS }
        requires repeats { self.old.repeats + later.repeats ≤ MAX_ITEMS }
        requires idle { self.old.idle + later.idle ≤ MAX_ITEMS }
        ensures { OnOk result (self.new ≡ followed self.old later) }
    {
        let Cleaned {
            removed,
            added,
            loops,
            repeats,
            idle,
        } = later;
        self.removed.append(removed)?;
        self.added.append(added)?;
        self.loops += loops;
        self.repeats += repeats;
        self.idle += idle;
        Ok(())
    }

    /// Takes in the key of an item that decides.
    #[inline(always)]
    pub fn decide(&mut self, graph: &Graph, key: &Key) -> Result<(), AllocError>
        requires ordered { key.now.a < key.now.b }
        requires below { key.now.b < graph.now.vertices }
        requires room { self.old.idle < MAX_ITEMS }
        ensures { OnOk result (self.new ≡ decided graph.now.edges key.now self.old) }
    {
        let edge = key.edge();
        match (key.insert, graph.has(edge)) {
            (true, false) => self.added.push(edge),
            (false, true) => self.removed.push(edge),
            _ => {
                self.idle += 1;
                Ok(())
            }
        }
    }
}

// The most workers of an engine.
const MAX_WORKERS: u32 = 64;

// Returns how many bits suffice for the vertices below n, at most 24.
fn bits_below(n: u32) -> u32
    requires { n ≤ MAX_VERTICES }
    ensures few { result ≤ 24 }
    ensures enough { n ≤ 2 ^ result }
{
    let mut bits = 0;
    while bits < 24 && 1u32 << bits < n {
        bits += 1;
    }
    bits
}

// Returns the net effect of a batch without isolations, by a walk over its sorted keys (`walk_by`).
fn clean_pairs<R: Threads + Sync>(
    crew: &Crew<'_, R>,
    graph: &Graph,
    items: &[Item],
) -> Result<Cleaned, AllocError>
    requires inside { All (IsInside graph.now.vertices) items.now }
    requires few { length items.now ≤ MAX_ITEMS }
    requires none { list_any is_isolation items.now ≡ false }
    ensures { IfOk result (λ c. c ≡ cleaned graph.now items.now) }
{
    let bits = bits_below(graph.vertices());
    let keys = sorted_keys(crew, bits, items)?;
    let mut cleaned = walk_by(crew, graph, bits, &keys)?;
    cleaned.loops = (items.len() - keys.len()) as u32;
    Ok(cleaned)
}

// Returns the net effect of any batch, by a walk from its last item to its first.
fn clean_all<R: Threads + Sync>(
    crew: &Crew<'_, R>,
    graph: &Graph,
    items: &[Item],
) -> Result<Cleaned, AllocError>
    requires inside { All (IsInside graph.now.vertices) items.now }
    requires few { length items.now ≤ MAX_ITEMS }
    ensures { IfOk result (λ c. c ≡ cleaned graph.now items.now) }
{
    // Evidence for the check: the edges of the graph ascend.
    let _ = graph.vertices();
    let mut cleaned = walk_back(crew.alloc, graph, items)?.cleaned;
    cleaned.removed.sort(crew.rt, crew.workers);
    cleaned.added.sort(crew.rt, crew.workers);
    Ok(cleaned)
}

fn has_isolation(items: &[Item]) -> bool
    ensures { result ≡ list_any is_isolation items.now }
{
    items
        .iter()
        .any(|item| matches!(*item, Item::Isolate { .. }))
}

/// Returns the net effect of the items on the graph (`cleaned`), which stays as it is. The caller has this many
/// workers, any number.
///
/// The vertices of the items are below n, and there are at most `MAX_ITEMS` items. The answer is the same for any
/// number of workers. Fails only if memory runs out.
///
/// With at most 1 worker no thread is started. With 2 or more, as many threads as the runtime has sort a list of 65,536
/// keys or edges or more. From 8,192 keys on, threads share the look-ups, up to one a worker with 4,096 keys or so for
/// each. All else costs what `clean` costs, in memory too.
pub fn clean_by<R: Threads + Sync>(
    rt: &R,
    alloc: Global,
    workers: u32,
    graph: &Graph,
    items: &[Item],
) -> Result<Cleaned, AllocError>
    requires inside { All (IsInside graph.now.vertices) items.now }
    requires few { length items.now ≤ MAX_ITEMS }
    ensures { IfOk result (λ c. c ≡ cleaned graph.now items.now) }
{
    let crew = Crew { rt, alloc, workers };
    if has_isolation(items) {
        clean_all(&crew, graph, items)
    } else {
        clean_pairs(&crew, graph, items)
    }
}

/// Returns the net effect of the items on the graph (`cleaned`), which stays as it is.
///
/// The vertices of the items are below n, and there are at most `MAX_ITEMS` items. The answer is the same for any
/// number of threads. Fails only if memory runs out.
///
/// Costs, for a batch without isolations:
///
/// - a sort of one key an item, of 8 bytes, and one look-up in the graph for each pair that the items name;
/// - memory for the keys and for the two lists.
///
/// Costs, for a batch with an isolation:
///
/// - a look-up in a tree for each item and for each neighbour of an isolated vertex, once a vertex;
/// - a sort of the two lists, and memory for the tree in place of the keys.
///
/// Without isolations threads share the look-ups as in `clean_by` with 64 workers. Each has lists of its own, which are
/// put together, so these take memory twice.
///
/// As many threads as the runtime has sort a list of 65,536 keys or edges or more. The calling thread alone sorts a
/// shorter one. If it has 512 keys or more, it deals them to buckets four times, with two passes each time. Meanwhile
/// it takes memory for the keys twice and for at most 4,096 counters. Keys that come in order cost one pass. With one
/// worker (`clean_by`) 65,536 keys or more are dealt once before, to at most 4,096 ranges, and then range by range.
pub fn clean<R: Threads + Sync>(
    rt: &R,
    alloc: Global,
    graph: &Graph,
    items: &[Item],
) -> Result<Cleaned, AllocError>
    requires inside { All (IsInside graph.now.vertices) items.now }
    requires few { length items.now ≤ MAX_ITEMS }
    ensures { IfOk result (λ c. c ≡ cleaned graph.now items.now) }
{
    clean_by(rt, alloc, MAX_WORKERS, graph, items)
}
