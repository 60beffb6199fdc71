//! Numbers that look random, the same in each run.
ghost use Rattle.std.specs.Prelude.{◌<◌};

/// Draws numbers by a linear congruence.
#[derive(Drop)]
pub struct Random {
    // The state from which the next number is made.
    state: u64,
}

impl Random {
    /// Begins the numbers of a seed.
    pub fn new(seed: u64) -> Self {
        Random { state: seed }
    }

    /// Returns the next number, below the bound.
    pub fn below(&mut self, bound: u32) -> u32
        requires { 0 < bound }
        ensures { result < bound }
    {
        self.state = self
            .state
            .wrapping_mul(6_364_136_223_846_793_005)
            .wrapping_add(1_442_695_040_888_963_407);
        (self.state >> 33) as u32 % bound
    }
}
