//! The group lines of a run, each with the new levels of its members.
ghost use Rattle.std.specs.Prelude.{◌≡◌, ◌<◌, ◌≤◌, [], ◌∷◌, ◌++◌, length, slice_get, IfSome, OnOk, OnErr};
ghost use Rattle.std.specs.List.{slice_range};
ghost use Rattle.kc_audit.specs.private.Flat.{start_of};

use crate::flat::Head;
use kc_history::{Replies, Reply};
use std::alloc::{AllocError, Global};
use std::marker::Model;

/// A group as it was printed: its phase, its label, and its members, each with its new level.
#[derive(Drop)]
pub struct GroupLine {
    /// The number of the group's phase.
    pub phase: u32,
    /// The least of its members.
    pub label: u32,
    /// The members, in the order in which they were printed; each reply has the level after the phase.
    pub members: Replies,
}

/// Group lines one after another. Contracts see them as a list of group lines.
///
/// The members of all lines share one `Vec`. So a line takes little more than its numbers, even with few members: 16
/// bytes, and 8 for each member.
#[derive(Drop)]
pub struct GroupLines {
    // One for each line, in order. No line ends before the previous one.
    heads: Vec<Head>,
    // The members of all lines, one line after another. The last line ends with this list.
    members: Vec<Reply>,
}

impl Model for GroupLines {
    ghost use Rattle.std.specs.Prelude.{List, length};
    ghost use Rattle.kc_audit.specs.declared.groups.GroupLine.{GroupLine};

    ghost Value = { List GroupLine };

    ghost use Rattle.kc_audit.specs.Flat.{lines_from, EndFrom};

    ghost view = { λ g. lines_from 0 g.heads.items g.members.items };

    ghost invariant = { λ g. EndFrom 0 g.heads.items (length g.members.items) };
}

// Returns where the members of line i begin: at the end of those of the line before it.
fn members_start(heads: &[Head], i: usize) -> usize
    requires { i < length heads.now }
    ensures { result ≡ start_of 0 heads.now i }
{
    if i == 0 { 0 } else { heads[i - 1].end }
}

// Returns the members of one line among those of all lines.
fn part_of(members: &[Reply], start: usize, end: usize) -> &[Reply]
    requires rising { start ≤ end }
    requires within { end ≤ length members.now }
    ensures { result.now ≡ slice_range members.now start end }
{
    &members[start..end]
}

impl GroupLines {
    /// Makes an empty list of group lines. Takes no memory.
    pub fn new(alloc: Global) -> Self
        ensures { result ≡ [] }
    {
        GroupLines {
            heads: Vec::new(alloc),
            members: Vec::new(alloc),
        }
    }

    /// Returns the number of lines.
    pub fn len(&self) -> usize
        ensures { result ≡ length self.now }
    {
        self.heads.len()
    }

    /// Returns the phase of line i, counted from 0.
    pub fn phase(&self, i: usize) -> u32
        requires { i < length self.now }
        ensures { IfSome (slice_get self.now i) (λ line. result ≡ line.phase) }
    {
        self.heads[i].phase
    }

    /// Returns the label of line i, counted from 0.
    pub fn label(&self, i: usize) -> u32
        requires { i < length self.now }
        ensures { IfSome (slice_get self.now i) (λ line. result ≡ line.label) }
    {
        self.heads[i].label
    }

    /// Returns the members of line i, counted from 0.
    pub fn members(&self, i: usize) -> &[Reply]
        requires { i < length self.now }
        ensures { IfSome (slice_get self.now i) (λ line. result.now ≡ line.members) }
    {
        let start = members_start(&self.heads, i);
        part_of(&self.members, start, self.heads[i].end)
    }

    /// Appends a line. Fails only if memory runs out; then the lines are unchanged. Cost: a copy of its members.
    pub fn push(&mut self, line: &GroupLine) -> Result<(), AllocError>
        ensures ok { OnOk result (self.new ≡ self.old ++ line.now ∷ []) }
        ensures err { OnErr result (self.new ≡ self.old) }
    {
        self.push_members(line.phase, line.label, line.members.as_slice())
    }

    // Appends a line of this phase, this label and these members.
    pub(crate) fn push_members(
        &mut self,
        phase: u32,
        label: u32,
        members: &[Reply],
    ) -> Result<(), AllocError>
        ensures ok { OnOk result (self.new ≡ self.old ++ record { phase = phase; label = label; members = members.now } ∷ []) }
        ensures err { OnErr result (self.new ≡ self.old) }
    {
        let end = self.members.len() + members.len();
        self.heads.reserve(1)?;
        self.members.extend_from_slice(members)?;
        self.heads.push(Head { phase, label, end })?;
        Ok(())
    }
}
