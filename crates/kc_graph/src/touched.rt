//! The pairs of vertices that the later items of a batch touch, those of isolated vertices among them.

ghost use Rattle.std.specs.Prelude.{◌≡◌, ◌||◌, false, true, [], IfOk, OnOk};
ghost use Rattle.kc_graph.specs.Cleaning.{holds};
ghost use Rattle.kc_graph.specs.private.Later.{is_noted};
ghost use Rattle.kc_graph.specs.Shape.{same_edge};

use crate::edges::Edge;
use std::alloc::{AllocError, Global};
use std::collections::BTreeSet;

/// The pairs that some items touch.
#[derive(Drop)]
pub struct Touched {
    /// The pairs of insertions and deletions.
    pub pairs: BTreeSet<(u32, u32)>,
    /// The isolated vertices: all pairs that hold one of them are touched.
    pub isolated: BTreeSet<u32>,
}

impl Touched {
    /// Makes an empty set of pairs. Takes no memory.
    pub fn new(alloc: Global) -> Self
        ensures pairs { result.pairs.keys ≡ [] }
        ensures isolated { result.isolated.keys ≡ [] }
    {
        Touched {
            pairs: BTreeSet::new(alloc),
            isolated: BTreeSet::new(alloc),
        }
    }

    /// Returns whether the pair is touched (`is_noted`).
    pub fn has(&self, e: Edge) -> bool
        ensures { result ≡ is_noted self.now e }
    {
        self.pairs.contains(&(e.a, e.b))
            || (self.isolated.contains(&e.a) || self.isolated.contains(&e.b))
    }

    /// Notes the pair of an insertion or deletion.
    pub fn add_pair(&mut self, e: Edge) -> Result<(), AllocError>
        ensures { OnOk result ((f : _) → is_noted self.new f ≡ (same_edge f e || is_noted self.old f)) }
    {
        self.pairs.insert((e.a, e.b))?;
        Ok(())
    }

    /// Notes all pairs that hold v.
    pub fn add_vertex(&mut self, v: u32) -> Result<(), AllocError>
        ensures { OnOk result ((f : _) → is_noted self.new f ≡ (holds v f || is_noted self.old f)) }
    {
        self.isolated.insert(v)?;
        Ok(())
    }

    /// Returns whether all pairs that hold v are touched, since a later item isolates v.
    pub fn has_all_at(&self, v: u32) -> bool
        ensures { result ≡ true → (e : _) → holds v e ≡ true → is_noted self.now e ≡ true }
    {
        self.isolated.contains(&v)
    }
}
