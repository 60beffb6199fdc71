//! Peeling: takes vertex after vertex away and counts the edges that are left after each. So the densest suffix is
//! known at the end.

ghost use Rattle.std.specs.Prelude.{◌≡◌, ◌-◌, ◌*◌, ◌<◌, ℕ, cond, nat_lt, drop, IfOk};
ghost use Rattle.kc_graph.specs.declared.limits.TheConstants.{MAX_VERTICES};
ghost use Rattle.kc_dense.specs.Sets.{members_of, edges_within};
ghost use Rattle.kc_dense.specs.Dense.{IsPeelingList, IsDensestSuffix};

use crate::remaining::{all_remaining, take_next};
use kc_graph::Graph;
use std::alloc::{AllocError, Global};

/// The vertices from one place of a peeling list on.
#[derive(Clone, Copy)]
pub struct Suffix {
    /// The place where they begin.
    pub first: u32,
    /// The number of edges with both ends among them.
    pub edges: u32,
}

impl Suffix {
    // Returns the denser of two suffixes of a list of n vertices, or the first if they are equally dense.
    fn denser(n: u32, one: Suffix, other: Suffix) -> Suffix
        requires one { one.first < n }
        requires other { other.first < n }
        ensures { result ≡ cond (nat_lt (one.edges * (n - other.first)) (other.edges * (n - one.first))) other one }
    {
        let one_over = u64::from(one.edges) * u64::from(n - other.first);
        let other_over = u64::from(other.edges) * u64::from(n - one.first);
        if one_over < other_over { other } else { one }
    }
}

/// The peeling list of a graph, with its densest suffix.
#[derive(Drop)]
pub struct Peeled {
    /// All vertices, in the order in which they were taken.
    pub order: Vec<u32>,
    /// The densest suffix, of several the longest.
    pub densest: Suffix,
}

/// Peels a graph (`IsPeelingList`) and finds the densest suffix on the way, of several the longest (`IsDensestSuffix`).
///
/// Costs time O((n + m) log n) for n vertices and m edges. Fails only if memory runs out.
pub fn peel(alloc: Global, graph: &Graph) -> Result<Peeled, AllocError>
    ensures peeled { IfOk result (λ p. IsPeelingList graph.now p.order.items) }
    ensures densest { IfOk result (λ p. IsDensestSuffix graph.now (drop p.densest.first p.order.items) p.order.items) }
    ensures edges { IfOk result (λ p. p.densest.edges ≡ edges_within graph.now (members_of (drop p.densest.first p.order.items))) }
{
    let n = graph.vertices();
    let mut degrees = all_remaining(alloc, graph)?;
    let mut order = Vec::with_capacity(alloc, n as usize)?;
    let mut edges = graph.edge_count();
    let mut densest = Suffix { first: 0, edges };
    for first in 0..n {
        densest = Suffix::denser(n, densest, Suffix { first, edges });
        let taken = take_next(&mut degrees, graph);
        edges -= taken.degree;
        order.push(taken.vertex)?;
    }
    Ok(Peeled { order, densest })
}
