//! The two counts of neighbours that a level adjacency keeps for each vertex, and how a count gains or loses a
//! neighbour.

ghost use Rattle.std.specs.Prelude.{◌≡◌, ◌+◌, ◌-◌, ◌<◌, ◌≤◌, ◌^◌, ◌&&◌, cond, nat_le, nat_lt, length, slice_index, slice_set};
ghost use Rattle.kc_adj.specs.private.Moving.{is_passed, recounted};

/// Two counts of neighbours for each vertex, each below the number of vertices.
#[derive(Drop)]
pub struct Counts {
    /// The neighbours on the vertex's level or above.
    pub own: Vec<u32>,
    /// The neighbours on the level below the vertex's or above. For a vertex on level 0 these are all its neighbours.
    pub below: Vec<u32>,
}

/// Returns 1 if `holds`, else 0.
pub fn as_one(holds: bool) -> u32
    ensures value { result ≡ cond holds 1 0 }
    ensures small { result ≤ 1 }
{
    if holds { 1 } else { 0 }
}

/// Returns whether the way up from level `from` to level `to` passes or reaches a level from which a vertex on `level`
/// counts.
///
/// A vertex has two counts, from its own level and from the level below on. If the result is false, neither changes.
pub fn is_reached(from: u16, to: u16, level: u16) -> bool
    ensures { result ≡ nat_lt from level && nat_le (level - 1) to }
{
    from < level && level - 1 <= to
}

/// Counts a neighbour of w that goes up from a level to another; w is on `level`. Each count of w gains the neighbour
/// if the count's level is passed or reached on the way.
///
/// A single branch skips the vertices whose counts don't change. The bound of 2^31 on both counts is chosen freely: any
/// up to 2^32 - 1 keeps the sums in range.
pub fn gain(counts: &mut Counts, w: u32, from: u16, to: u16, level: u16)
    requires own { w < length counts.old.own.items }
    requires below { w < length counts.old.below.items }
    requires own_small { slice_index counts.old.own.items w < 2 ^ 31 }
    requires below_small { slice_index counts.old.below.items w < 2 ^ 31 }
    ensures own { counts.new.own.items ≡ slice_set counts.old.own.items w (slice_index counts.old.own.items w + cond (is_passed from to level) 1 0) }
    ensures below { counts.new.below.items ≡ slice_set counts.old.below.items w (slice_index counts.old.below.items w + cond (is_passed from to (level - 1)) 1 0) }
{
    if is_reached(from, to, level) {
        counts.own[w as usize] += as_one(level <= to);
        counts.below[w as usize] += as_one(from < level - 1);
    }
}

// Counts a neighbour of w no more that goes down from a level to another; w is on `level`. Each count of w loses the
// neighbour if the count's level is above the new level and not above the old one.
//
// A single branch skips the vertices whose counts don't change.
fn lose(counts: &mut Counts, w: u32, from: u16, to: u16, level: u16)
    requires own { w < length counts.old.own.items }
    requires below { w < length counts.old.below.items }
    requires own_some { cond (is_passed to from level) 1 0 ≤ slice_index counts.old.own.items w }
    requires below_some { cond (is_passed to from (level - 1)) 1 0 ≤ slice_index counts.old.below.items w }
    ensures own { counts.new.own.items ≡ slice_set counts.old.own.items w (slice_index counts.old.own.items w - cond (is_passed to from level) 1 0) }
    ensures below { counts.new.below.items ≡ slice_set counts.old.below.items w (slice_index counts.old.below.items w - cond (is_passed to from (level - 1)) 1 0) }
{
    if to < level && level - 1 <= from {
        counts.own[w as usize] -= as_one(level <= from);
        counts.below[w as usize] -= as_one(to < level - 1);
    }
}

/// Counts a neighbour of w as it goes from a level to another; w is on `level`.
pub fn recount(counts: &mut Counts, w: u32, from: u16, to: u16, level: u16)
    requires own { w < length counts.old.own.items }
    requires below { w < length counts.old.below.items }
    requires own_small { slice_index counts.old.own.items w < 2 ^ 31 }
    requires below_small { slice_index counts.old.below.items w < 2 ^ 31 }
    requires own_some { cond (is_passed to from level) 1 0 ≤ slice_index counts.old.own.items w }
    requires below_some { cond (is_passed to from (level - 1)) 1 0 ≤ slice_index counts.old.below.items w }
    ensures own { counts.new.own.items ≡ slice_set counts.old.own.items w (recounted from to level (slice_index counts.old.own.items w)) }
    ensures below { counts.new.below.items ≡ slice_set counts.old.below.items w (recounted from to (level - 1) (slice_index counts.old.below.items w)) }
{
    if from < to {
        gain(counts, w, from, to, level);
    } else {
        lose(counts, w, from, to, level);
    }
}
