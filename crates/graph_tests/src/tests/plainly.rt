//! Plain bodies of phases. One vertex after another goes to the level that its neighbours require, by a fresh count,
//! until none moves.

ghost use Rattle.std.specs.Prelude.{◌≡◌, ◌<◌, ◌≤◌};

use kc_graph::{Graph, MAX_VERTICES};
use kc_levels::{Move, Thresholds};
use std::alloc::Global;
use std::process::Abort;

// The most tests of a vertex until levels have to be settled.
const LOOKS: u32 = 100_000_000;

// Returns the length of a list that has an item for each vertex.
pub fn count_of<R: Abort>(rt: &R, len: usize) -> u32
    ensures same { result ≡ len }
    ensures few { result ≤ MAX_VERTICES }
{
    assert!(rt; len <= MAX_VERTICES as usize);
    len as u32
}

// Returns the level of v.
pub fn level_of(levels: &[u16], v: u32) -> u16 {
    levels.get(v as usize).copied().unwrap_or(0)
}

// Returns how many of the vertices are on this level or above.
fn count_from(vertices: &[u32], levels: &[u16], least: u16) -> u32 {
    let mut count = 0u32;
    for w in vertices {
        if level_of(levels, *w) >= least {
            count = count.wrapping_add(1);
        }
    }
    count
}

// Returns the level to which a vertex has to rise from its own, as its neighbours are now.
fn risen(neighbours: &[u32], th: &Thresholds, levels: &[u16], own: u16) -> u16 {
    for level in own..th.top() {
        if count_from(neighbours, levels, level) <= th.high(th.group(level)) {
            return level;
        }
    }
    own.max(th.top())
}

// Returns the level to which a vertex has to fall from its own, as its neighbours are now.
fn fallen(neighbours: &[u32], th: &Thresholds, levels: &[u16], own: u16) -> u16 {
    for down in 0..own {
        let below = own - 1 - down;
        if below <= th.top() && count_from(neighbours, levels, below) >= th.low(th.group(below)) {
            return below + 1;
        }
    }
    0
}

// Lets v go to the level that its neighbours require. Returns whether it moved.
fn moves(graph: &Graph, th: &Thresholds, rise: bool, levels: &mut Vec<u16>, v: u32) -> bool
    requires { v < graph.now.vertices }
{
    let neighbours = graph.neighbours(v);
    let own = level_of(levels, v);
    let level = if rise {
        risen(neighbours, th, levels, own)
    } else {
        fallen(neighbours, th, levels, own)
    };
    if let Some(place) = levels.get_mut(v as usize) {
        *place = level;
    }
    level != own
}

// Lets vertices rise to the least levels, from their own on, that meet the upper invariant, or fall to the greatest
// that meet the lower. All wait at first, and one that moves lets its neighbours wait again.
pub fn settle_plainly<R: Abort>(
    rt: &R,
    alloc: Global,
    graph: &Graph,
    th: &Thresholds,
    rise: bool,
    levels: &mut Vec<u16>,
) {
    let mut waiting = Vec::new(alloc);
    for v in 0..graph.vertices() {
        waiting.push(v).expect(rt, "memory");
    }
    for _ in 0..LOOKS {
        match waiting.pop() {
            Some(v) if v < graph.vertices() => {
                if moves(graph, th, rise, levels, v) {
                    waiting
                        .extend_from_slice(graph.neighbours(v))
                        .expect(rt, "memory");
                }
            }
            _ => return,
        }
    }
    assert!(rt; false, "levels don't settle");
}

// Returns whether these are the moves of n vertices from levels to others, ascending.
pub fn are_moves(moves: &[Move], n: u32, before: &[u16], after: &[u16]) -> bool {
    let mut rest = moves.iter();
    for v in 0..n {
        let (old, new) = (level_of(before, v), level_of(after, v));
        if old != new {
            match rest.next() {
                Some(m) if m.vertex == v && m.old == old && m.new == new => {}
                _ => return false,
            }
        }
    }
    rest.next().is_none()
}
