//! How the vertices are cut into ranges.

ghost use Rattle.std.specs.Prelude.{◌≡◌, ◌*◌, ◌^◌, ◌<◌, ◌≤◌, ℕ};

// The most vertices of a range, while there are fewer than `MOST_RANGES`.
const WIDEST: u32 = 65_536;

// The most vertices of a graph.
const MOST_VERTICES: u32 = 16_777_216;

// The fewest ranges of a graph that has more than one.
const FEWEST_RANGES: u32 = 4;

// The most ranges, before their number is made a multiple of the number of workers. No run has more workers.
const MOST_RANGES: u32 = 64;

// The fewest vertices that are cut.
const LEAST_CUT: u32 = 32_768;

// The fewest vertices that are cut for one worker. What a range writes stays in the near cache then.
const LEAST_ALONE: u32 = 262_144;

// The fewest vertices, to begin or to stay, for which threads are made. To make four takes as long as to go through the
// rows of a thousand vertices.
const LEAST_SHARED: usize = 4_096;

/// How the vertices are cut into ranges of `width` that follow each other, and when threads share a pass over the
/// ranges. The last range may be shorter.
#[derive(Clone, Copy, Debug, PartialEq, Eq)]
pub struct Layout {
    /// The number of vertices of a range, 1 to 2^24.
    pub(crate) width: u32,
    // The fewest vertices, to begin or to stay, for which threads share a pass.
    least_shared: usize,
    ghost some: { 0 < width },
    ghost small: { width ≤ 2 ^ 24 },
}

/// How the ranges share a pass.
#[derive(Clone, Copy)]
pub struct Sharing {
    /// How the vertices are cut.
    pub layout: Layout,
    /// Whether the lists are dealt by range, so that each range hears its own.
    pub is_dealt: bool,
    /// How many threads share the pass.
    pub threads: usize,
    ghost some: { 0 < threads },
}

impl Layout {
    ghost use Rattle.kc_insert.specs.Ranges.{range_of};

    /// Makes ranges of `width` vertices, 1 to 2^24.
    pub fn new(width: u32, least_shared: usize) -> Self
        requires some { 0 < width }
        requires small { width ≤ 2 ^ 24 }
    {
        Layout {
            width,
            least_shared,
        }
    }

    /// Makes one range of all vertices.
    pub fn whole() -> Self {
        Layout::new(MOST_VERTICES, LEAST_SHARED)
    }

    /// Makes the ranges that two workers share: one range of fewer than 32,768 vertices, else 4 to 64.
    pub fn of(n: u32) -> Self {
        Layout::for_workers(n, 2)
    }

    /// Makes the ranges for a long phase: one range of fewer than 32,768 vertices, or for one worker of fewer than
    /// 262,144. Else makes 4 to 126 of equal width. Up to 4,194,304 vertices each has at most 65,536, and beyond at
    /// most 262,144.
    ///
    /// The threads of a pass get ranges that follow each other, the same number each if it can be. So the number of
    /// ranges is a multiple of the number of workers: equal counts of equal ranges share the work.
    pub(crate) fn for_workers(n: u32, workers: u32) -> Self {
        if n < LEAST_CUT || (workers < 2 && n < LEAST_ALONE) {
            return Layout::whole();
        }
        let workers = workers.clamp(1, MOST_RANGES);
        let fewest = n.div_ceil(WIDEST).clamp(FEWEST_RANGES, MOST_RANGES);
        let ranges = fewest.div_ceil(workers) * workers;
        Layout::new(n.div_ceil(ranges).min(MOST_VERTICES), LEAST_SHARED)
    }

    /// Returns the number of ranges of n vertices.
    pub(crate) fn ranges(self, n: u32) -> usize
        ensures inside { (v : ℕ) → v < n → range_of self.width v < result }
        ensures each { (j : ℕ) → j < result → j * self.width < n }
    {
        n.div_ceil(self.width) as usize
    }

    /// Returns the range of v. One range of all vertices costs no division.
    pub(crate) fn range_of(self, v: u32) -> usize
        ensures { result ≡ range_of self.width v }
    {
        if v < self.width {
            0
        } else {
            (v / self.width) as usize
        }
    }

    /// Returns the first vertex of a range.
    pub(crate) fn first_of(self, range: usize) -> u32
        requires { range * self.width < 2 ^ 32 }
        ensures { result ≡ range * self.width }
    {
        (range as u32) * self.width
    }

    /// Returns the end of a range of n vertices: the vertex after its last one.
    pub(crate) fn end_of(self, range: usize, n: u32) -> u32
        requires some { range * self.width < n }
        requires few { n ≤ 2 ^ 24 }
        ensures within { result ≤ n }
        ensures from { range * self.width ≤ result }
        ensures inside { (v : ℕ) → v < n → range_of self.width v ≡ range → (range * self.width ≤ v) × (v < result) }
        ensures own { (v : ℕ) → range * self.width ≤ v → v < result → range_of self.width v ≡ range }
    {
        let next = self.first_of(range + 1);
        if next < n { next } else { n }
    }

    /// Returns whether threads share a pass over `count` vertices.
    pub(crate) fn is_shared(self, count: usize) -> bool {
        count >= self.least_shared
    }

    /// Returns the number of threads that share a pass over `count` vertices, at most `workers`: one for each half of
    /// `least_shared`.
    pub(crate) fn threads(self, count: usize, workers: u32) -> usize
        requires { 1 ≤ workers }
        ensures some { 0 < result }
        ensures few { result ≤ workers }
    {
        if self.is_shared(count) {
            let share = (self.least_shared / 2).max(1);
            (count / share).min(workers as usize).max(1)
        } else {
            1
        }
    }
}
