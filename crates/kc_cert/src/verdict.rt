//! Decides whether the levels of a certificate meet both invariants.
ghost use Rattle.std.specs.Prelude.{◌≡◌, ◌<◌, ◌-◌, ◌^◌, All, length, get_or, nat_le, count_by};
ghost use Rattle.kc_levels.specs.LevelList.{IsWithin};
ghost use Rattle.kc_cert.specs.Verdicts.{IsVerdict};
ghost use Rattle.kc_cert.specs.private.Verdicts.{IsVerdictAt};

use crate::Certificate;
use kc_levels::Thresholds;

/// The verdict on the levels of a certificate.
#[derive(Clone, Copy, Debug, PartialEq, Eq)]
pub enum Verdict {
    /// Both invariants hold at each vertex.
    Certified,
    /// The least vertex that breaks an invariant: it has more neighbours on its level or above than its band allows.
    Upper(u32),
    /// The least vertex that breaks an invariant: it has fewer neighbours on the level below or above than it needs.
    Lower(u32),
}

// Returns how many of the neighbours stand on the level or above, and how many on the level below it or above. Level 0
// has none below. One pass.
fn counts(neighbours: &[u32], levels: &[u16], level: u16) -> (u32, u32)
    requires inside { All (λ w. w < length levels.now) neighbours.now }
    requires few { length neighbours.now < 2 ^ 32 }
    ensures up { result.0 ≡ count_by (λ w. nat_le level (get_or levels.now w 0)) neighbours.now }
    ensures down { result.1 ≡ count_by (λ w. nat_le (level - 1) (get_or levels.now w 0)) neighbours.now }
{
    let below = level.saturating_sub(1);
    let mut up = 0;
    let mut down = 0;
    for w in neighbours {
        let other = levels[*w as usize];
        if other >= level {
            up += 1;
        }
        if other >= below {
            down += 1;
        }
    }
    (up, down)
}

// Returns the verdict at one vertex.
fn verdict_at(cert: &Certificate, th: &Thresholds, v: u32) -> Verdict
    requires vertex { v < cert.now.graph.vertices }
    requires sized { length cert.now.levels ≡ cert.now.graph.vertices }
    requires profile { th.now.profile ≡ cert.now.profile }
    requires within { IsWithin th.now cert.now.graph cert.now.levels }
    ensures { IsVerdictAt cert.now v result }
{
    let level = cert.levels.get(v);
    let (up, down) = counts(cert.graph.neighbours(v), cert.levels.as_slice(), level);
    if up > th.high(th.group(level)) {
        return Verdict::Upper(v);
    }
    if level == 0 {
        return Verdict::Certified;
    }
    if down < th.low(th.group(level - 1)) {
        return Verdict::Lower(v);
    }
    Verdict::Certified
}

/// Returns `Certified` if the levels meet both invariants at each vertex (`IsVerdict` of `specs/Verdicts`). Otherwise
/// returns the least vertex that breaks one, and which one it breaks. No vertex breaks both.
///
/// The thresholds are those of the certificate's profile and number of vertices. Each vertex has one level, and no
/// level is above the top, as in each certificate of `read_certificate`.
///
/// Takes no memory. Costs one pass over the neighbours of each vertex up to the one that breaks an invariant, so O(n +
/// m).
pub fn verify(cert: &Certificate, th: &Thresholds) -> Verdict
    requires sized { length cert.now.levels ≡ cert.now.graph.vertices }
    requires profile { th.now.profile ≡ cert.now.profile }
    requires within { IsWithin th.now cert.now.graph cert.now.levels }
    ensures { IsVerdict cert.now result }
{
    for v in 0..cert.graph.vertices() {
        match verdict_at(cert, th, v) {
            Verdict::Certified => {}
            breach => return breach,
        }
    }
    Verdict::Certified
}
