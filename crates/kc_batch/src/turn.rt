//! The effect of a line within a batch.
ghost use Rattle.std.specs.Prelude.{◌≡◌};
ghost use Rattle.kc_batch.specs.Turns.{is_inside, is_allowed, turn_of};
ghost use Rattle.kc_batch.specs.private.Turns.{IsTurn};

use crate::rules::Rules;
use crate::token::Kind;
use kc_graph::Item;
use kc_levels::Profile;
use kc_text::Reason;

/// The effect of a line within a batch.
#[derive(Clone, Copy, Debug, PartialEq, Eq)]
pub enum Turn {
    /// The line adds an item.
    Add(Item),
    /// The line ends the batch.
    Close,
    /// The line is a fault; the lines after it are passed over.
    Pass(Reason),
    /// The input ends, or passes its limit.
    Stop(Reason),
}

fn is_inside(n: u32, item: Item) -> bool
    ensures { result ≡ is_inside n item }
{
    match item {
        Item::Insert { u, v } | Item::Delete { u, v } => u < n && v < n,
        Item::Isolate { v } => v < n,
    }
}

fn is_allowed(profile: Profile, item: Item) -> bool
    ensures { result ≡ is_allowed profile item }
{
    match (profile, item) {
        (Profile::One, Item::Isolate { .. }) => false,
        _ => true,
    }
}

/// Returns the effect of a line of this kind within a batch that keeps to the rules. `full` says that the batch has as
/// many items as are allowed.
#[inline(always)]
pub fn turn_at(rules: Rules, full: bool, kind: Kind) -> Turn
    ensures turn { result ≡ turn_of rules full kind }
    ensures sound { IsTurn rules full result }
{
    match kind {
        Kind::Item(item) => {
            if !is_allowed(rules.profile, item) {
                return Turn::Pass(Reason::BadLine);
            }
            if !is_inside(rules.n, item) {
                return Turn::Pass(Reason::BadVertex);
            }
            if full {
                return Turn::Pass(Reason::TooMany);
            }
            Turn::Add(item)
        }
        Kind::BatchEnd => Turn::Close,
        Kind::BatchStart | Kind::Other => Turn::Pass(Reason::BadLine),
        Kind::TooLong => Turn::Pass(Reason::LineLong),
        Kind::Limit => Turn::Stop(Reason::InputLimit),
        Kind::InputEnd => Turn::Stop(Reason::Truncated),
    }
}
