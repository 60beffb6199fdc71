//! The counts at the end of a session, for a text of one line.
ghost use Rattle.std.specs.Prelude.{◌≡◌, ◌<◌, ◌^◌, max};
ghost use Rattle.kc_session.specs.Ended.{ended_with, greatest, replies_in};
ghost use Rattle.kc_session.specs.States.{IsOpen};

use crate::counts::Counts;
use kc_engine::Engine;
use kc_history::Replies;

/// The counts at the end of a session. Groups and moves stop at 4,294,967,295.
#[derive(Clone, Copy, Debug, PartialEq, Eq)]
pub struct Ended {
    /// The number of batches, refused ones included.
    pub batches: u32,
    /// The number of refused batches.
    pub refused: u32,
    /// The number of phases of all batches.
    pub phases: u32,
    /// The number of moving groups in all phases.
    pub groups: u32,
    /// The number of moves in all phases.
    pub moves: u32,
    /// The number of edges at the end.
    pub edges: u32,
    /// The number of replies to readers.
    pub replies: u32,
    /// The greatest level at the end.
    pub top: u16,
}

/// Returns the number of replies, which is below 2^32.
pub fn count_replies(lists: &[Replies]) -> u32
    requires { replies_in lists.now < 2 ^ 32 }
    ensures { result ≡ replies_in lists.now }
{
    let mut count = 0;
    for replies in lists {
        count += replies.len() as u32;
    }
    count
}

// Returns the greater of both.
fn greater(a: u16, b: u16) -> u16
    ensures { result ≡ max a b }
{
    if a < b { b } else { a }
}

// Returns the greatest of the levels.
fn greatest(levels: &[u16]) -> u16
    ensures { result ≡ greatest levels.now }
{
    let mut top = 0;
    for level in levels {
        top = greater(top, *level);
    }
    top
}

impl Ended {
    /// Returns the counts of a session that ends with these counts of batches, this engine, this number of replies and
    /// these levels.
    pub fn with(counts: Counts, engine: &Engine, replies: u32, levels: &[u16]) -> Ended
        requires { IsOpen engine.now }
        ensures { result ≡ ended_with counts engine.now.state replies levels.now }
    {
        Ended {
            batches: counts.batches,
            refused: counts.refused,
            phases: engine.phases(),
            groups: counts.groups,
            moves: counts.moves,
            edges: engine.graph().edge_count(),
            replies,
            top: greatest(levels),
        }
    }
}
