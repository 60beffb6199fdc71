//! Tests of items: are their vertices those of a graph?
ghost use Rattle.std.specs.Prelude.{◌≤◌, All, length};
ghost use Rattle.std.specs.Bool.{OnTrue};
ghost use Rattle.kc_graph.specs.declared.limits.TheConstants.{MAX_ITEMS};
ghost use Rattle.kc_graph.specs.Cleaning.{IsInside};

use kc_graph::{Item, MAX_ITEMS};

// Returns whether the vertices of the item are below n.
fn is_inside(item: Item, n: u32) -> bool
    ensures { OnTrue result (IsInside n item) }
{
    match item {
        Item::Insert { u, v } => u < n && v < n,
        Item::Delete { u, v } => u < n && v < n,
        Item::Isolate { v } => v < n,
    }
}

/// Returns whether the items may be a batch of a graph with n vertices: there are at most `MAX_ITEMS`, of vertices
/// below n.
pub fn are_batch(items: &[Item], n: u32) -> bool
    ensures inside { OnTrue result (All (IsInside n) items.now) }
    ensures few { OnTrue result (length items.now ≤ MAX_ITEMS) }
{
    items.len() <= MAX_ITEMS as usize && items.iter().all(|item| is_inside(*item, n))
}
