//! The two profiles, and how the thresholds of a band follow from those of the band below.
ghost use Rattle.std.specs.Prelude.{◌≡◌, ◌≤◌, ◌<◌, ◌^◌};
ghost use Rattle.kc_levels.specs.Thresholds.{next_low, high_over, next_grow, lo_after};

/// Which sequences the thresholds follow.
#[derive(Clone, Copy, Debug, PartialEq, Eq)]
pub enum Profile {
    /// From 1 on each `low` is the one before and a quarter of it, at least 1 more. Each `high` is twice the `low`, but
    /// the first is 0.
    One,
    /// The finer one. From 1 on each `low` is the one before and an eighth of it, at least 1 more. Each `high` is the
    /// `low` and half of it, but the first is 0.
    Two,
}

impl Profile {
    // Returns the low after this one.
    pub(crate) fn next_low(self, low: u32) -> u32
        requires { low < 2 ^ 25 }
        ensures { result ≡ next_low self low }
    {
        match self {
            Profile::One => low + (low / 4).max(1),
            Profile::Two => low + (low / 8).max(1),
        }
    }

    // Returns the high of a band with this low.
    pub(crate) fn high_over(self, low: u32) -> u32
        requires { low < 2 ^ 25 }
        ensures { result ≡ high_over self low }
    {
        match self {
            Profile::One => 2 * low,
            Profile::Two => low + low / 2,
        }
    }

    // Returns the grow after this one.
    pub(crate) fn next_grow(self, grown: u32) -> u32
        requires { grown < 2 ^ 25 }
        ensures { result ≡ next_grow self grown }
    {
        match self {
            Profile::One => (5 * grown + 3) / 4,
            Profile::Two => (9 * grown + 7) / 8,
        }
    }

    // Returns the lo of the band above one with this low.
    pub(crate) fn lo_after(self, low: u32) -> u32
        requires { low < 2 ^ 24 }
        ensures value { result ≡ lo_after self low }
        ensures small { result < 2 ^ 24 }
    {
        match self {
            Profile::One => 4 * low / 9 + 1,
            Profile::Two => 8 * low / 17 + 1,
        }
    }
}
