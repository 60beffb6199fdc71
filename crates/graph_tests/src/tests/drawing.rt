//! Random edges, ascending.

ghost use Rattle.std.specs.Prelude.{◌<◌};

use std::alloc::Global;
use std::process::Abort;
use test_support::random::Random;

// Returns ascending pairs of n vertices, the lesser first. A lesser end has at most `most` of them, each up to `gap`
// numbers after the one before.
pub fn drawn_pairs<R: Abort>(
    rt: &R,
    alloc: Global,
    random: &mut Random,
    n: u32,
    gap: u32,
    most: u32,
) -> Vec<(u32, u32)>
    requires { 0 < gap }
{
    let mut pairs = Vec::new(alloc);
    for a in 0..n {
        let mut b = a;
        for _ in 0..most {
            b = b.saturating_add(1).saturating_add(random.below(gap));
            if b < n {
                pairs.push((a, b)).expect(rt, "memory");
            }
        }
    }
    pairs
}

// Returns all pairs of n vertices.
pub fn all_pairs<R: Abort>(rt: &R, alloc: Global, n: u32) -> Vec<(u32, u32)> {
    drawn_pairs(rt, alloc, &mut Random::new(0), n, 1, n)
}

// Pairs dealt to three batches.
#[derive(Drop)]
pub struct Batches {
    pub first: Vec<(u32, u32)>,
    pub second: Vec<(u32, u32)>,
    pub third: Vec<(u32, u32)>,
}

// Deals pairs to batches. A pair goes to the first batch once in `parts` times, to the second as often, and else to the
// third.
pub fn dealt<R: Abort>(
    rt: &R,
    alloc: Global,
    random: &mut Random,
    pairs: &[(u32, u32)],
    parts: u32,
) -> Batches
    requires { 0 < parts }
{
    let mut first = Vec::new(alloc);
    let mut second = Vec::new(alloc);
    let mut third = Vec::new(alloc);
    for pair in pairs {
        let batch = match random.below(parts) {
            0 => &mut first,
            1 => &mut second,
            _ => &mut third,
        };
        batch.push(*pair).expect(rt, "memory");
    }
    Batches {
        first,
        second,
        third,
    }
}

impl Batches {
    pub fn parts(&self) -> [&[(u32, u32)]; 3] {
        [&self.first, &self.second, &self.third]
    }
}
