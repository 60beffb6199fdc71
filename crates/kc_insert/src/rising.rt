//! The levels during a sweep. All rising vertices are on one level, so that a step puts them on the next by one write.

ghost use Rattle.std.specs.Prelude.{◌≡◌, ◌<◌, ◌==◌, ◌&&◌, ◌||◌, ℕ, true, List, not, length, slice_index, slice_set};
ghost use Rattle.kc_graph.specs.Numbers.{has_number};
ghost use Rattle.kc_insert.specs.private.Rising.{all_at, rises, seen};

use kc_levels::Levels;

/// What stands in the list for the level of a rising vertex. A level is always less.
pub(crate) const RISING: u16 = 65_535;

/// The levels during a sweep, and which vertices rise: contracts speak of `seen` and `rises`.
#[derive(Drop)]
pub struct RisingLevels {
    /// The level of each vertex that doesn't rise, and 65,535 for each that does.
    pub stored: Levels,
    /// The level that the sweep is at, on which all rising vertices are.
    pub level: u16,
}

impl RisingLevels {
    /// Returns the level of v.
    pub fn get(&self, v: u32) -> u16
        requires { v < length (seen self.now) }
        ensures { result ≡ slice_index (seen self.now) v }
    {
        let level = self.stored.get(v);
        if level == RISING { self.level } else { level }
    }

    /// Returns whether v rises.
    pub fn rises(&self, v: u32) -> bool
        requires { v < length (seen self.now) }
        ensures { result ≡ rises self.now v }
    {
        self.stored.get(v) == RISING
    }

    /// Begins to raise v, which is on the level of the sweep from now on.
    pub fn begin(&mut self, v: u32)
        requires { v < length (seen self.old) }
        ensures level { self.new.level ≡ self.old.level }
        ensures seen { seen self.new ≡ slice_set (seen self.old) v self.old.level }
        ensures rises { (u : ℕ) → rises self.new u ≡ (rises self.old u || (u == v)) }
    {
        self.stored.set(v, RISING);
    }

    /// Stops v, which stays on the level of the sweep.
    pub fn stop(&mut self, v: u32)
        requires small { self.old.level < 65535 }
        requires rises { rises self.old v ≡ true }
        ensures level { self.new.level ≡ self.old.level }
        ensures seen { seen self.new ≡ seen self.old }
        ensures rises { (u : ℕ) → rises self.new u ≡ (rises self.old u && not (u == v)) }
    {
        let level = self.level;
        self.stored.set(v, level);
    }

    /// Takes the sweep, and with it all rising vertices, to the level.
    pub fn go_to(&mut self, level: u16)
        ensures level { self.new.level ≡ level }
        ensures seen { (risers : List ℕ) → ((v : ℕ) → rises self.old v ≡ has_number v risers) → seen self.new ≡ all_at (seen self.old) risers level }
        ensures rises { (v : ℕ) → rises self.new v ≡ rises self.old v }
    {
        self.level = level;
    }
}
