//! A tournament tree: numbers at the leaves, and at each other node the lesser of its children. The root is the least
//! of all.

ghost use Rattle.std.specs.Prelude.{◌≡◌, ◌+◌, ◌*◌, ◌^◌, ◌<◌, length, drop, set, min, slice_index, IfOk};
ghost use Rattle.kc_dense.specs.private.Tournaments.{IsPlayed, IsFirstLeastWithin, IsFirstLeast};

use std::alloc::{AllocError, Global};
use std::marker::Model;

// The number at the leaves past the given numbers.
const GREATEST: u32 = u32::MAX;

/// A tournament tree: numbers of which the least is found fast, of several the first. Contracts see the list of the
/// numbers.
#[derive(Drop)]
pub struct Tournament {
    // The number of numbers.
    len: usize,
    // The number of leaves: a power of two, and no fewer than the numbers.
    width: usize,
    // Node 1 is the root, and the children of node i stand at 2i and 2i + 1. The leaves are the upper half: first the
    // numbers, then `GREATEST`. Each node with children is the lesser of the two.
    nodes: Vec<u32>,
}

impl Model for Tournament {
    ghost use Rattle.std.specs.Prelude.{List, ℕ, take, drop};
    ghost use Rattle.kc_dense.specs.private.Tournaments.{IsTree};

    ghost Value = { List ℕ };

    ghost view = { λ t. take t.len (drop t.width t.nodes.items) };

    ghost invariant = { λ t. IsTree t.len t.width t.nodes.items };
}

// Returns the lesser of the numbers at the two children of a node.
fn lesser_number(nodes: &[u32], node: usize) -> u32
    requires { 2 * node + 1 < length nodes.now }
    ensures { result ≡ min (slice_index nodes.now (2 * node)) (slice_index nodes.now (2 * node + 1)) }
{
    nodes[2 * node].min(nodes[2 * node + 1])
}

// Returns the child of a node with the lesser number, the first if both have the same.
fn first_lesser_child(nodes: &[u32], node: usize) -> usize
    requires { 2 * node + 1 < length nodes.now }
    ensures { IsFirstLeastWithin (2 * node) (2 * node + 2) nodes.now result }
{
    if nodes[2 * node + 1] < nodes[2 * node] {
        2 * node + 1
    } else {
        2 * node
    }
}

// Computes all nodes above the leaves.
fn play(nodes: &mut [u32], width: usize)
    requires { length nodes.old ≡ 2 * width }
    ensures played { IsPlayed nodes.new }
    ensures leaves { drop width nodes.new ≡ drop width nodes.old }
{
    let mut node = width;
    while node > 1 {
        node -= 1;
        nodes[node] = lesser_number(nodes, node);
    }
}

// Puts a number at a leaf and recomputes the nodes above it, as far up as anything changes.
fn replay(nodes: &mut [u32], width: usize, i: usize, number: u32)
    requires sized { length nodes.old ≡ 2 * width }
    requires below { i < width }
    requires played { IsPlayed nodes.old }
    ensures played { IsPlayed nodes.new }
    ensures leaves { drop width nodes.new ≡ set (drop width nodes.old) i number }
{
    let mut node = width + i;
    nodes[node] = number;
    while node > 1 {
        node /= 2;
        let least = lesser_number(nodes, node);
        if nodes[node] == least {
            return;
        }
        nodes[node] = least;
    }
}

impl Tournament {
    /// Makes the tree of these numbers.
    ///
    /// Costs one pass over them. Takes memory for at most four numbers for each. Fails only if memory runs out.
    pub fn new(alloc: Global, numbers: &[u32]) -> Result<Self, AllocError>
        requires { length numbers.now < 2 ^ 32 }
        ensures { IfOk result (λ t. t ≡ numbers.now) }
    {
        let len = numbers.len();
        let width = len.next_power_of_two();
        let mut nodes = Vec::with_capacity(alloc, 2 * width)?;
        nodes.resize(width, 0)?;
        nodes.extend_from_slice(numbers)?;
        nodes.resize(2 * width, GREATEST)?;
        play(&mut nodes, width);
        Ok(Tournament { len, width, nodes })
    }

    /// Returns the number at place i.
    pub fn get(&self, i: usize) -> u32
        requires { i < length self.now }
        ensures { result ≡ slice_index self.now i }
    {
        self.nodes[self.width + i]
    }

    /// Puts a number at place i. Costs O(log n) for n numbers.
    pub fn set(&mut self, i: usize, number: u32)
        requires { i < length self.old }
        ensures { self.new ≡ set self.old i number }
    {
        replay(&mut self.nodes, self.width, i, number);
    }

    /// Returns the place of the least number, of several the first. Costs O(log n) for n numbers.
    pub fn first_least(&self) -> usize
        requires { 0 < length self.now }
        ensures { IsFirstLeast self.now result }
    {
        let mut node = 1;
        while node < self.width {
            node = first_lesser_child(&self.nodes, node);
        }
        node - self.width
    }
}
