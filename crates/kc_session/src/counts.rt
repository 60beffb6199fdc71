//! The batches, groups and moves of a session, counted up as each batch is applied.
ghost use Rattle.std.specs.Prelude.{◌≡◌, ◌<◌, ◌≤◌, ◌+◌, ◌-◌, ◌^◌, length};
ghost use Rattle.kc_session.specs.Counts.{capped, moves_in, groups_of, moves_of};

use kc_groups::PhasePlan;
use kc_history::Entry;

/// The counts of batches so far. Groups and moves stop at 4,294,967,295.
#[derive(Clone, Copy, Debug, PartialEq, Eq)]
pub struct Counts {
    /// The number of batches.
    pub batches: u32,
    /// The number of refused batches.
    pub refused: u32,
    /// The number of moving groups in all phases.
    pub groups: u32,
    /// The number of moves in all phases.
    pub moves: u32,
}

// Returns the sum of both, or 4,294,967,295 if it is more.
fn capped_sum(count: u32, more: usize) -> u32
    ensures { result ≡ capped (count + more) }
{
    match u32::try_from(more) {
        Ok(more) => count.saturating_add(more),
        Err(_) => u32::MAX,
    }
}

// Returns the count with the moves of these entries added.
fn with_moves(count: u32, entries: &[Entry]) -> u32
    ensures { result ≡ capped (count + moves_in entries.now) }
{
    let mut count = count;
    for entry in entries {
        count = capped_sum(count, entry.moves.len());
    }
    count
}

impl Counts {
    /// Returns the counts of no batches.
    pub fn none() -> Counts
        ensures { result ≡ record { batches = 0; refused = 0; groups = 0; moves = 0 } }
    {
        Counts {
            batches: 0,
            refused: 0,
            groups: 0,
            moves: 0,
        }
    }

    /// Returns these counts with an accepted batch of these phases added.
    pub fn with_accepted(self, phases: &[PhasePlan]) -> Counts
        requires few { self.batches < 2 ^ 32 - 1 }
        ensures { result ≡ record { batches = self.batches + 1; refused = self.refused + 0; groups = capped (self.groups + groups_of phases.now); moves = capped (self.moves + moves_of phases.now) } }
    {
        let mut groups = self.groups;
        let mut moves = self.moves;
        for plan in phases {
            groups = capped_sum(groups, plan.groups.len());
            moves = with_moves(moves, plan.groups.as_slice());
        }
        Counts {
            batches: self.batches + 1,
            refused: self.refused,
            groups,
            moves,
        }
    }

    /// Returns these counts with a refused batch added.
    pub fn with_refused(self) -> Counts
        requires few { self.batches < 2 ^ 32 - 1 }
        requires fewer { self.refused ≤ self.batches }
        ensures { result ≡ record { batches = self.batches + 1; refused = self.refused + 1; groups = capped (self.groups + 0); moves = capped (self.moves + 0) } }
    {
        Counts {
            batches: self.batches + 1,
            refused: self.refused + 1,
            groups: self.groups,
            moves: self.moves,
        }
    }
}
