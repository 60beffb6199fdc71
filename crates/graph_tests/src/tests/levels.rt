// Thresholds of bands, and a star that meets and breaks the invariants, all worked out by hand.
ghost use Rattle.std.specs.Prelude.{◌≡◌};

use super::support::{check_row, graph, levels};
use kc_graph::MAX_VERTICES;
use kc_levels::{Estimate, Levels, Profile, Thresholds, at_least, check_lower, check_upper};
use std::alloc::Global;
use std::process::Abort;

fn thresholds(rt: &impl Abort, alloc: Global, profile: Profile, n: u32) -> Thresholds
    ensures { result ≡ record { profile = profile; vertices = n } }
{
    assert!(rt; 1 <= n && n <= MAX_VERTICES);
    Thresholds::new(alloc, profile, n).expect(rt, "memory")
}

// The top level for a number of vertices.
const TOPS: &[(Profile, u32, u16)] = &[
    (Profile::One, 1, 1),
    (Profile::One, 2, 1),
    (Profile::One, 3, 1),
    (Profile::One, 4, 5),
    (Profile::One, 5, 6),
    (Profile::One, 6, 11),
    (Profile::One, 8, 19),
    (Profile::One, 1_048_576, 3365),
    (Profile::One, 16_777_216, 5042),
    (Profile::Two, 1, 1),
    (Profile::Two, 5, 11),
    (Profile::Two, 16_777_216, 16769),
];

#[test]
fn tops(rt: HostRuntime) {
    for (row, &(profile, n, top)) in TOPS.iter().enumerate() {
        check_row(
            &rt,
            row,
            thresholds(&rt, rt.alloc(), profile, n).top() == top,
        );
    }
}

// A level of 8 vertices, its band, and the low, the high, the est and the lo of the band. The top is 19.
const EIGHT: &[(u16, u16, u32, u32, u32, u32)] = &[
    (0, 0, 1, 0, 0, 0),
    (1, 1, 1, 2, 2, 1),
    (6, 1, 1, 2, 2, 1),
    (7, 2, 2, 4, 2, 1),
    (12, 2, 2, 4, 2, 1),
    (13, 3, 3, 6, 2, 1),
    (18, 3, 3, 6, 2, 1),
    (19, 4, 4, 8, 4, 2),
];

#[test]
fn groups_of_eight(rt: HostRuntime) {
    let th = thresholds(&rt, rt.alloc(), Profile::One, 8);
    for (row, &(level, group, low, high, est, lo)) in EIGHT.iter().enumerate() {
        assert!(rt; level <= th.top());
        let i = th.group(level);
        let estimate = Estimate { est, lo, hi: high };
        check_row(
            &rt,
            row,
            i == group && th.low(i) == low && th.high(i) == high && th.estimate(level) == estimate,
        );
    }
}

// A star with three leaves and a vertex alone: their levels, a vertex, and how many of its neighbours are on its level
// or above. Then whether the vertex meets the upper and the lower invariant. Band 1 allows two neighbours.
const STAR: &[([u16; 5], u32, u32, bool, bool)] = &[
    ([1, 1, 2, 5, 0], 0, 3, false, true),
    ([2, 1, 2, 5, 0], 0, 2, true, true),
    ([2, 1, 2, 5, 0], 4, 0, true, true),
    ([2, 1, 2, 5, 1], 4, 0, true, false),
];

#[test]
fn a_star_meets_and_breaks_the_bounds(rt: HostRuntime) {
    let th = thresholds(&rt, rt.alloc(), Profile::One, 5);
    let star = graph(&rt, rt.alloc(), 5, &[(0, 1), (0, 2), (0, 3)]);
    for (row, &(items, v, own, upper, lower)) in STAR.iter().enumerate() {
        let levels = levels(&rt, rt.alloc(), &items);
        assert!(rt; v < 5 && levels.get(v) <= th.top());
        check_row(
            &rt,
            row,
            at_least(&star, &levels, v, levels.get(v)) == own
                && check_upper(&star, &levels, &th, v) == upper
                && check_lower(&star, &levels, &th, v) == lower,
        );
    }
}
