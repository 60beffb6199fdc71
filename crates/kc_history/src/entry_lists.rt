//! Entries one after another.

use crate::entries::Entry;
use kc_graph::List;

/// Entries in the order in which they take effect. Contracts see them as a list.
pub type Entries = List<Entry>;
