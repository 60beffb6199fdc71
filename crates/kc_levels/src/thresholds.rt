//! How many neighbours each band of levels needs and allows, and what a level says of its vertex's coreness.
ghost use Rattle.std.specs.Prelude.{◌≡◌, ℕ, ◌+◌, ◌-◌, ◌*◌, ◌<◌, ◌≤◌, ◌^◌, IfOk, length, slice_index};
ghost use Rattle.kc_levels.specs.Thresholds.{low, high, lo, est, height, last_group, top_level, group_of};

use crate::Profile;
use kc_graph::MAX_VERTICES;
use std::alloc::{AllocError, Global};
use std::marker::Model;

/// What the band of a vertex's level says of the vertex's coreness: an estimate, and two bounds.
#[derive(Clone, Copy, Debug, PartialEq, Eq)]
pub struct Estimate {
    /// The estimate: twice the lower bound.
    pub est: u32,
    /// The lower bound.
    pub lo: u32,
    /// The upper bound: at most three times the estimate, in `Profile::Two` twice.
    pub hi: u32,
}

/// The thresholds of a profile for a number of vertices. Contracts see these two (`Scale`).
#[derive(Drop)]
pub struct Thresholds {
    // Which sequences they follow.
    profile: Profile,
    // The number of vertices, 1 to `MAX_VERTICES`.
    n: u32,
    // The number of levels of each band but band 0.
    height: u16,
    // The `low` of band 0 to that of the last band.
    lows: Vec<u32>,
}

impl Model for Thresholds {
    ghost use Rattle.kc_levels.specs.Thresholds.{Scale};
    ghost use Rattle.kc_levels.specs.ThresholdTable.{IsThresholdTable};

    ghost Value = { Scale };

    ghost view = { λ t. record { profile = t.profile; vertices = t.n } };

    ghost invariant = { λ t. IsThresholdTable t.profile t.n t.height t.lows.items };
}

// Returns the least j with grow j above n.
fn height_of(profile: Profile, n: u32) -> u16
    requires positive { 1 ≤ n }
    requires small { n ≤ MAX_VERTICES }
    ensures { result ≡ height profile n }
{
    let mut grown = 1;
    let mut height = 0;
    while grown <= n {
        grown = profile.next_grow(grown);
        height += 1;
    }
    height
}

// Returns the `low` of band 0 to that of the last band.
fn lows_to_last(alloc: Global, profile: Profile, n: u32) -> Result<Vec<u32>, AllocError>
    requires positive { 1 ≤ n }
    requires small { n ≤ MAX_VERTICES }
    ensures sized { IfOk result (λ lows. length lows.items ≡ 1 + last_group profile n) }
    ensures values { IfOk result (λ lows. (i : ℕ) → i < length lows.items → slice_index lows.items i ≡ low profile i) }
{
    let mut lows = Vec::new(alloc);
    lows.push(1)?;
    let mut last = 1;
    lows.push(last)?;
    while profile.high_over(last) < n - 1 {
        last = profile.next_low(last);
        lows.push(last)?;
    }
    Ok(lows)
}

impl Thresholds {
    /// Makes the thresholds for `n` vertices, 1 to `MAX_VERTICES`. Takes memory and time for a number per band, of
    /// which there are at most 133. Fails only if memory runs out.
    pub fn new(alloc: Global, profile: Profile, n: u32) -> Result<Thresholds, AllocError>
        requires positive { 1 ≤ n }
        requires small { n ≤ MAX_VERTICES }
        ensures { IfOk result (λ th. th ≡ record { profile = profile; vertices = n }) }
    {
        let lows = lows_to_last(alloc, profile, n)?;
        Ok(Thresholds {
            profile,
            n,
            height: height_of(profile, n),
            lows,
        })
    }

    /// Returns how many neighbours on a level of band `i` or above a vertex needs to stand on the next level. Bands are
    /// 0 to the last band.
    pub fn low(&self, i: u16) -> u32
        requires { i ≤ last_group self.now.profile self.now.vertices }
        ensures value { result ≡ low self.now.profile i }
        ensures small { result < 2 ^ 24 }
    {
        self.lows[i as usize]
    }

    /// Returns how many neighbours at its own level or above a vertex of band `i` may have.
    pub fn high(&self, i: u16) -> u32
        requires { i ≤ last_group self.now.profile self.now.vertices }
        ensures value { result ≡ high self.now.profile i }
        ensures small { result < 2 ^ 25 }
    {
        if i == 0 {
            0
        } else {
            self.profile.high_over(self.low(i))
        }
    }

    /// Returns the band of a level, 0 to the last band, for a level from 0 to the top. Level 0 alone is band 0. Each
    /// later band has the same number of levels, but the last has one.
    pub fn group(&self, level: u16) -> u16
        requires { level ≤ top_level self.now.profile self.now.vertices }
        ensures value { result ≡ group_of self.now.profile self.now.vertices level }
        ensures within { result ≤ last_group self.now.profile self.now.vertices }
        ensures small { top_level self.now.profile self.now.vertices < 65535 }
    {
        if level == 0 {
            0
        } else {
            1 + (level - 1) / self.height
        }
    }

    /// Returns the greatest level, at least 1.
    pub fn top(&self) -> u16
        ensures value { result ≡ top_level self.now.profile self.now.vertices }
        ensures small { result < 65535 }
        ensures positive { 1 ≤ self.now.vertices }
        ensures limit { self.now.vertices ≤ MAX_VERTICES }
    {
        1 + (self.lows.len() as u16 - 2) * self.height
    }

    // Returns the lower bound of the coreness in band j.
    fn lo(&self, j: u16) -> u32
        requires { j ≤ last_group self.now.profile self.now.vertices }
        ensures value { result ≡ lo self.now.profile j }
        ensures small { result < 2 ^ 24 }
    {
        match j {
            0 => 0,
            1 => 1,
            _ => self.profile.lo_after(self.low(j - 1)),
        }
    }

    /// Returns the estimate and the two bounds of a level, from 0 to the top.
    pub fn estimate(&self, level: u16) -> Estimate
        requires { level ≤ top_level self.now.profile self.now.vertices }
        ensures est { result.est ≡ est self.now.profile (group_of self.now.profile self.now.vertices level) }
        ensures lo { result.lo ≡ lo self.now.profile (group_of self.now.profile self.now.vertices level) }
        ensures hi { result.hi ≡ high self.now.profile (group_of self.now.profile self.now.vertices level) }
    {
        let group = self.group(level);
        let lo = self.lo(group);
        Estimate {
            est: 2 * lo,
            lo,
            hi: self.high(group),
        }
    }
}
