//! The test whether the vertices of items are vertices of the graph.
ghost use Rattle.std.specs.Prelude.{◌≡◌, ◌<◌, All, take, length, MatchOption};
ghost use Rattle.std.specs.Bool.{OnTrue, OnFalse};
ghost use Rattle.kc_graph.specs.Cleaning.{IsInside};
ghost use Rattle.kc_service.specs.Services.{IsFirstOutside};

use kc_graph::Item;

// Returns whether the vertices of the item are below n.
fn is_inside(item: Item, n: u32) -> bool
    ensures inside { OnTrue result (IsInside n item) }
    ensures outside { OnFalse result (IsInside n item → ⊥) }
{
    match item {
        Item::Insert { u, v } | Item::Delete { u, v } => u < n && v < n,
        Item::Isolate { v } => v < n,
    }
}

/// Returns the index of the first item with a vertex that isn't below n.
pub(crate) fn first_outside(items: &[Item], n: u32) -> Option<usize>
    ensures { MatchOption result (All (IsInside n) items.now) (IsFirstOutside n items.now) }
{
    for i in 0..items.len() {
        if !is_inside(items[i], n) {
            return Some(i);
        }
    }
    None
}
