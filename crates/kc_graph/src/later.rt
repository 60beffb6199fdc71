//! Cleaning of a batch that may isolate vertices: a walk from its last item to its first, which knows what later items
//! touch.

ghost use Rattle.std.specs.Prelude.{◌≡◌, ◌≢◌, ◌<◌, ◌≤◌, ◌||◌, [], ◌∷◌, ◌++◌, length, filter, map, cond, All, IfOk, OnOk};
ghost use Rattle.kc_graph.specs.Shape.{IsGraph, same_edge, neighbours_of};
ghost use Rattle.kc_graph.specs.Cleaning.{IsInside, holds, pair_of};
ghost use Rattle.kc_graph.specs.Keys.{edge_of, decided};
ghost use Rattle.kc_graph.specs.private.Keys.{repeated};
ghost use Rattle.kc_graph.specs.private.Later.{is_noted, isolated, untouched_at, IsNetEffect};

use crate::cleaning::Cleaned;
use crate::edge_lists::Edges;
use crate::edges::Edge;
use crate::graphs::Graph;
use crate::items::Item;
use crate::keys::Key;
use crate::limits::MAX_ITEMS;
use crate::touched::Touched;
use std::alloc::{AllocError, Global};

/// The net effect of the later items of a batch, in a walk from its last item to its first (`IsNetEffect`).
#[derive(Drop)]
pub struct Later {
    /// The counts, and the two lists in any order.
    pub cleaned: Cleaned,
    /// The pairs that the items touch.
    pub touched: Touched,
}

// Returns the edge between two different vertices.
fn edge_between(v: u32, w: u32) -> Edge
    requires { v ≢ w }
    ensures { result ≡ pair_of v w }
{
    if v < w {
        Edge { a: v, b: w }
    } else {
        Edge { a: w, b: v }
    }
}

// Appends the edges from v to these vertices that no later item touches.
fn take_row(removed: &mut Edges, touched: &Touched, v: u32, row: &[u32]) -> Result<(), AllocError>
    requires { All (λ w. v ≢ w) row.now }
    ensures { OnOk result (removed.new ≡ removed.old ++ untouched_at touched.now v row.now) }
{
    for &w in row {
        let edge = edge_between(v, w);
        if !touched.has(edge) {
            removed.push(edge)?;
        }
    }
    Ok(())
}

impl Later {
    fn of_none(alloc: Global) -> Self
        ensures { (edges : _) → IsNetEffect edges [] result }
    {
        Later {
            cleaned: Cleaned::of_loops(alloc, 0),
            touched: Touched::new(alloc),
        }
    }

    // Takes in the key of an item before the others.
    fn take_key(&mut self, graph: &Graph, key: &Key) -> Result<(), AllocError>
        requires ordered { key.now.a < key.now.b }
        requires below { key.now.b < graph.now.vertices }
        requires room { self.old.cleaned.repeats < MAX_ITEMS }
        requires idle_room { self.old.cleaned.idle < MAX_ITEMS }
        ensures cleaned { OnOk result (self.new.cleaned ≡ cond (is_noted self.old.touched (edge_of key.now)) (repeated self.old.cleaned) (decided graph.now.edges key.now self.old.cleaned)) }
        ensures touched { OnOk result ((e : _) → is_noted self.new.touched e ≡ (same_edge e (edge_of key.now) || is_noted self.old.touched e)) }
    {
        let edge = key.edge();
        if self.touched.has(edge) {
            self.cleaned.repeats += 1;
            return Ok(());
        }
        self.cleaned.decide(graph, key)?;
        self.touched.add_pair(edge)
    }

    // Takes in an isolation of v before the others.
    fn isolate(&mut self, graph: &Graph, v: u32) -> Result<(), AllocError>
        requires graph { IsGraph graph.now }
        requires below { v < graph.now.vertices }
        requires room { self.old.cleaned.idle < MAX_ITEMS }
        ensures cleaned { OnOk result (self.new.cleaned ≡ isolated graph.now.edges self.old.touched v self.old.cleaned) }
        ensures touched { OnOk result ((e : _) → is_noted self.new.touched e ≡ (holds v e || is_noted self.old.touched e)) }
    {
        if self.touched.has_all_at(v) {
            self.cleaned.idle += 1;
            return Ok(());
        }
        let before = self.cleaned.removed.len();
        take_row(
            &mut self.cleaned.removed,
            &self.touched,
            v,
            graph.neighbours(v),
        )?;
        if self.cleaned.removed.len() == before {
            self.cleaned.idle += 1;
        }
        self.touched.add_vertex(v)?;
        Ok(())
    }

    // Takes in an item before the others.
    fn take(&mut self, graph: &Graph, item: Item) -> Result<(), AllocError>
        requires graph { IsGraph graph.now }
        requires inside { IsInside graph.now.vertices item }
        requires loops_room { self.old.cleaned.loops < MAX_ITEMS }
        requires repeats_room { self.old.cleaned.repeats < MAX_ITEMS }
        requires idle_room { self.old.cleaned.idle < MAX_ITEMS }
        ensures { OnOk result ((later : _) → IsNetEffect graph.now.edges later self.old → IsNetEffect graph.now.edges (item ∷ later) self.new) }
    {
        match (Key::of(item), item) {
            (Some(key), _) => {
                self.take_key(graph, &key)?;
                Ok(())
            }
            (None, Item::Isolate { v }) => {
                self.isolate(graph, v)?;
                Ok(())
            }
            (None, _) => {
                self.cleaned.loops += 1;
                Ok(())
            }
        }
    }
}

/// Returns the net effect of the items of a batch, with the two lists in any order (`IsNetEffect`).
///
/// Costs a look-up in a tree of pairs for each item, and for each neighbour of an isolated vertex, once a vertex.
pub fn walk_back(alloc: Global, graph: &Graph, items: &[Item]) -> Result<Later, AllocError>
    requires graph { IsGraph graph.now }
    requires inside { All (IsInside graph.now.vertices) items.now }
    requires few { length items.now ≤ MAX_ITEMS }
    ensures { IfOk result (IsNetEffect graph.now.edges items.now) }
{
    let mut later = Later::of_none(alloc);
    let mut place = items.len();
    while place > 0 {
        place -= 1;
        later.take(graph, items[place])?;
    }
    Ok(later)
}
