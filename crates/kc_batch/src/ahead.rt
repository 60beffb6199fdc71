//! A batch that was read ahead of its rest.
ghost use Rattle.std.specs.Prelude.{◌≡◌, ◌≤◌, [], length, All, true, false};
ghost use Rattle.kc_batch.specs.Turns.{is_inside, is_allowed};

use crate::Items;
use crate::rules::Rules;
use std::alloc::Global;

/// The first lines of a batch, which were read before the rest of it.
#[derive(Drop)]
pub struct Ahead {
    /// The rules of the batch.
    pub rules: Rules,
    /// Whether the `batch` line was read.
    pub begun: bool,
    /// The items that were read after it.
    pub items: Items,
    ghost none: { begun ≡ false → items ≡ [] },
    ghost few: { length items ≤ rules.item_limit },
    ghost inside: { All (λ item. is_inside rules.n item ≡ true) items },
    ghost allowed: { All (λ item. is_allowed rules.profile item ≡ true) items },
}

impl Ahead {
    /// Makes the state in which nothing was read ahead, or, if `begun`, the `batch` line alone. Takes no memory.
    pub fn new(alloc: Global, rules: Rules, begun: bool) -> Ahead
        ensures rules { result.rules ≡ rules }
        ensures begun { result.begun ≡ begun }
        ensures items { result.items ≡ [] }
    {
        Ahead {
            rules,
            begun,
            items: Items::new(alloc),
        }
    }
}
