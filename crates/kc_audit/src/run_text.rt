//! A run as it was recorded.
ghost use Rattle.std.specs.Prelude.{◌↔◌, ◌≡◌, ◌<◌, ◌≤◌, length, All, IsTrue};
ghost use Rattle.kc_audit.specs.Runs.{are_below, AreBelow, IsAuditable};

use crate::GroupLines;
use kc_graph::List;
use kc_history::{Replies, Reply};

/// The replies of reader 0, of reader 1 and so on. Contracts see them as a list of lists of replies.
pub type Readers = List<Replies>;

/// A run as it was recorded.
#[derive(Drop)]
pub struct RunText {
    /// The number of vertices.
    pub vertices: u32,
    /// The group lines of all phases in order: the history with which the replies are compared.
    pub groups: GroupLines,
    /// The replies of each reader.
    pub readers: Readers,
}

/// The greatest number of readers, and of the replies of each, so that each can be numbered.
pub(crate) const MAX_ITEMS: usize = 4_294_967_294;

// Returns whether the vertices of these replies are below n.
pub(crate) fn are_below(n: u32, replies: &[Reply]) -> bool
    ensures test { result ≡ are_below n replies.now }
    ensures fact { IsTrue result ↔ AreBelow n replies.now }
{
    replies.iter().all(|reply| reply.vertex < n)
}

fn have_members_below(n: u32, groups: &GroupLines) -> bool
    ensures { IsTrue result ↔ All (λ line. AreBelow n line.members) groups.now }
{
    for i in 0..groups.len() {
        if !are_below(n, groups.members(i)) {
            return false;
        }
    }
    true
}

fn have_replies_below(n: u32, readers: &[Replies]) -> bool
    ensures { IsTrue result ↔ All (AreBelow n) readers.now }
{
    readers
        .iter()
        .all(|replies| are_below(n, replies.as_slice()))
}

fn have_few_replies(readers: &[Replies]) -> bool
    ensures { IsTrue result ↔ All (λ rs. length rs ≤ 4294967294) readers.now }
{
    readers.iter().all(|replies| replies.len() <= MAX_ITEMS)
}

impl RunText {
    /// Returns whether the run can be audited (`IsAuditable`), as each run text that was read can.
    ///
    /// Each vertex of a member or a reply is below `vertices`. There are at most 4,294,967,294 readers, with as many
    /// replies each. Cost: one pass over members and replies.
    pub fn is_auditable(&self) -> bool
        ensures { IsTrue result ↔ IsAuditable self.now }
    {
        have_members_below(self.vertices, &self.groups)
            && have_replies_below(self.vertices, self.readers.as_slice())
            && self.readers.len() <= MAX_ITEMS
            && have_few_replies(self.readers.as_slice())
    }
}
