//! The items of a batch.

use kc_graph::{Item, List};

/// Items in the order of the input. Contracts see them as a list.
pub type Items = List<Item>;
