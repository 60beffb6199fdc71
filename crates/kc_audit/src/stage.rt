//! What a line does at its place in a run text.
//!
//! Each function `x_turn` is the program of the definition `x_step` (`Documents`). A definition gives the run after the
//! line, and the function changes the run of a [`Draft`].
ghost use Rattle.std.specs.Prelude.{◌≡◌, ℕ, ◌<◌, ◌≤◌, List, length, drop, Some, IfOk, OnOk};
ghost use Rattle.kc_text.specs.Words.{words};
ghost use Rattle.kc_audit.specs.Runs.{IsAuditable};
ghost use Rattle.kc_audit.specs.Words.{pairs_of};
ghost use Rattle.kc_audit.specs.private.Kinds.{kind_told, IsWithin};
ghost use Rattle.kc_audit.specs.Documents.{empty_run, misfit, head_of, vertices_of, is_next, left_after, batch_step, phase_step, rises_from, is_group, members_step, replies_step, reader_step, vertex_step, readers_step, batches_step, groups_step, vertices_step, closed_step, step_of};
ghost use Rattle.kc_audit.specs.private.Documents.{step_told};
ghost use Rattle.kc_audit.specs.declared.run_text.RunText.{RunText};

use crate::form::{Form, FormLine};
use crate::run_text::{MAX_ITEMS, are_below};
use crate::words::read_pairs;
use crate::{GroupLines, Readers, RunText};
use kc_history::{MAX_VERTICES, Replies, Reply};
use kc_text::Reason;
use std::alloc::{AllocError, Global};

// The greatest number of readers.
const MAX_READERS: u32 = 64;

/// The phase lines that may still come in a batch.
#[derive(Clone, Copy, Debug, PartialEq, Eq)]
pub enum PhasesLeft {
    /// None.
    NoPhase,
    /// One that inserts.
    Insertion,
    /// One of either kind, or one that deletes and then one that inserts.
    AnyPhase,
}

/// A place among the batches of a run.
#[derive(Clone, Copy, Debug, PartialEq, Eq)]
pub struct Place {
    /// The number of the last batch, or 0.
    pub batch: u32,
    /// The number of the last phase, or 0.
    pub phase: u32,
    /// The phases that may follow in the last batch.
    pub left: PhasesLeft,
}

/// The lines that may come.
#[derive(Clone, Copy, Debug, PartialEq, Eq)]
pub enum Stage {
    /// Lines after a batch line, or before the first.
    Batches(Place),
    /// Lines after a phase line or one of its group lines; the next label is at least `low`.
    Groups { place: Place, low: u32 },
    /// Lines after a reader line.
    Readers,
    /// Lines after a vertex line; the next one is of vertex `next`.
    VertexLines { next: u32 },
    /// The lines after `end`.
    Closed,
}

/// A run while it is read, and what reading it needs.
#[derive(Drop)]
pub struct Draft {
    /// Gives the memory for groups and replies.
    pub alloc: Global,
    /// The run up to the last line.
    pub run: RunText,
    /// The members of a group line pass through here.
    pub members: Vec<Reply>,
}

impl Draft {
    /// Makes the draft of a run of n vertices without groups and readers. Takes no memory.
    pub fn new(alloc: Global, n: u32) -> Draft
        ensures { result.run ≡ empty_run n }
    {
        Draft {
            alloc,
            run: RunText {
                vertices: n,
                groups: GroupLines::new(alloc),
                readers: Readers::new(alloc),
            },
            members: Vec::new(alloc),
        }
    }
}

/// What a line does.
#[derive(Clone, Copy, Debug, PartialEq, Eq)]
pub enum Turn {
    /// It fits, and lines of this stage may follow.
    Go(Stage),
    /// It ends the document.
    End,
    /// It doesn't fit.
    Stop(Reason),
}

/// Returns why a line doesn't fit if a line of another kind is due.
pub fn misfit(form: Form) -> Reason
    ensures { (text : List ℕ) → result ≡ misfit (kind_told text form) }
{
    match form {
        Form::TooLong => Reason::LineLong,
        Form::Limit => Reason::InputLimit,
        Form::InputEnd => Reason::Truncated,
        _ => Reason::BadLine,
    }
}

/// Succeeds if this is the line `kcore-run 1`; else returns why it isn't.
pub fn head_of(form: Form) -> Result<(), Reason>
    ensures { (text : List ℕ) → result ≡ head_of (kind_told text form) }
{
    match form {
        Form::Head => Ok(()),
        _ => Err(misfit(form)),
    }
}

/// Returns the N of the line `vertices N`, or why there is no such N.
pub fn vertices_of(form: Form) -> Result<u32, Reason>
    ensures { (text : List ℕ) → result ≡ vertices_of (kind_told text form) }
{
    match form {
        Form::Vertices(n) if 1 <= n && n <= MAX_VERTICES => Ok(n),
        _ => Err(misfit(form)),
    }
}

// Returns whether `number` is the one after `last`.
fn is_next(last: u32, number: u32) -> bool
    ensures { result ≡ is_next last number }
{
    u64::from(number) == u64::from(last) + 1
}

// Takes the line of a batch; `left` are the phases that may follow in it.
fn batch_turn(place: Place, batch: u32, left: PhasesLeft) -> Turn
    ensures { (run : RunText) → batch_step run place batch left ≡ step_told run result }
{
    if is_next(place.batch, batch) {
        Turn::Go(Stage::Batches(Place {
            batch,
            phase: place.phase,
            left,
        }))
    } else {
        Turn::Stop(Reason::BadLine)
    }
}

// Returns the phases that may follow a phase that inserts (`add`) or deletes, or None if the phase may not come.
fn left_after(left: PhasesLeft, add: bool) -> Option<PhasesLeft>
    ensures { result ≡ left_after left add }
{
    match (left, add) {
        (PhasesLeft::AnyPhase, false) => Some(PhasesLeft::Insertion),
        (PhasesLeft::AnyPhase, true) => Some(PhasesLeft::NoPhase),
        (PhasesLeft::Insertion, true) => Some(PhasesLeft::NoPhase),
        (PhasesLeft::Insertion, false) => None,
        (PhasesLeft::NoPhase, _) => None,
    }
}

// Takes the line of a phase that inserts (`add`) or deletes.
fn phase_turn(place: Place, phase: u32, add: bool) -> Turn
    ensures { (run : RunText) → phase_step run place phase add ≡ step_told run result }
{
    if !is_next(place.phase, phase) {
        return Turn::Stop(Reason::BadLine);
    }
    match left_after(place.left, add) {
        Some(left) => Turn::Go(Stage::Groups {
            place: Place {
                batch: place.batch,
                phase,
                left,
            },
            low: 0,
        }),
        None => Turn::Stop(Reason::BadLine),
    }
}

// Returns whether the vertices ascend strictly, from `low` on.
fn rises_from(low: u32, members: &[Reply]) -> bool
    ensures { result ≡ rises_from low members.now }
{
    let mut least = u64::from(low);
    for member in members {
        if u64::from(member.vertex) < least {
            return false;
        }
        least = u64::from(member.vertex) + 1;
    }
    true
}

// Returns whether these may be the members of a group with this label.
fn is_group(label: u32, members: &[Reply]) -> bool
    ensures { result ≡ is_group label members.now }
{
    match members.first() {
        Some(first) => first.vertex == label && rises_from(label, members),
        None => false,
    }
}

// Adds the group of a line of the open phase. Stops with `BadLine` if the members don't ascend from the label, and with
// `BadVertex` if one is no vertex. Fails only if memory runs out.
fn members_turn(
    run: &mut RunText,
    place: Place,
    label: u32,
    members: &[Reply],
) -> Result<Turn, AllocError>
    ensures step { IfOk result (λ turn. members_step run.old place label (Some members.now) ≡ step_told run.new turn) }
    ensures sound { IsAuditable run.old → OnOk result (IsAuditable run.new) }
{
    if !is_group(label, members) {
        return Ok(Turn::Stop(Reason::BadLine));
    }
    if !are_below(run.vertices, members) {
        return Ok(Turn::Stop(Reason::BadVertex));
    }
    run.groups.push_members(place.phase, label, members)?;
    Ok(Turn::Go(Stage::Groups {
        place,
        low: label + 1,
    }))
}

// Takes the replies of a reader line.
fn replies_turn(draft: &mut Draft, text: &[u8], from: usize) -> Result<Turn, AllocError>
    requires within { from ≤ length text.now }
    requires few { length draft.old.run.readers < 64 }
    ensures step { IfOk result (λ turn. replies_step draft.old.run (pairs_of 61 (words (drop from text.now))) ≡ step_told draft.new.run turn) }
    ensures sound { IsAuditable draft.old.run → OnOk result (IsAuditable draft.new.run) }
{
    let mut replies = Vec::new(draft.alloc);
    if !read_pairs(text, from, b'=', &mut replies)? || replies.is_empty() {
        return Ok(Turn::Stop(Reason::BadLine));
    }
    if !are_below(draft.run.vertices, &replies) {
        return Ok(Turn::Stop(Reason::BadVertex));
    }
    if replies.len() > MAX_ITEMS {
        // No line is long enough for more than `MAX_ITEMS` replies.
        return Err(AllocError);
    }
    draft.run.readers.push(Replies::from_vec(replies))?;
    Ok(Turn::Go(Stage::Readers))
}

// Takes the line of a reader, whose replies begin at `from`.
fn reader_turn(draft: &mut Draft, reader: u32, text: &[u8], from: usize) -> Result<Turn, AllocError>
    requires { from ≤ length text.now }
    ensures step { IfOk result (λ turn. reader_step draft.old.run reader (words (drop from text.now)) ≡ step_told draft.new.run turn) }
    ensures sound { IsAuditable draft.old.run → OnOk result (IsAuditable draft.new.run) }
{
    if reader as usize != draft.run.readers.len() || reader >= MAX_READERS {
        return Ok(Turn::Stop(Reason::BadLine));
    }
    replies_turn(draft, text, from)
}

// Takes the line of vertex v if `next` is due.
fn vertex_turn(run: &RunText, next: u32, v: u32) -> Turn
    ensures { vertex_step run.now next v ≡ step_told run.now result }
{
    if v == next && v < run.vertices {
        Turn::Go(Stage::VertexLines { next: v + 1 })
    } else {
        Turn::Stop(Reason::BadLine)
    }
}

// Takes a line after the batches: the next reader, or the first vertex.
fn readers_turn(draft: &mut Draft, line: &FormLine<'_>) -> Result<Turn, AllocError>
    requires { IsWithin line.now.text.now line.now.form }
    ensures step { IfOk result (λ turn. readers_step draft.old.run (kind_told line.now.text.now line.now.form) ≡ step_told draft.new.run turn) }
    ensures sound { IsAuditable draft.old.run → OnOk result (IsAuditable draft.new.run) }
{
    match line.form {
        Form::Reader { reader, from } => reader_turn(draft, reader, line.text, from),
        Form::Vertex(v) => Ok(vertex_turn(&draft.run, 0, v)),
        _ => Ok(Turn::Stop(misfit(line.form))),
    }
}

// Takes a line after the line of a batch, or before the first: it may also be any line after the batches.
fn batches_turn(draft: &mut Draft, place: Place, line: &FormLine<'_>) -> Result<Turn, AllocError>
    requires { IsWithin line.now.text.now line.now.form }
    ensures step { IfOk result (λ turn. batches_step draft.old.run place (kind_told line.now.text.now line.now.form) ≡ step_told draft.new.run turn) }
    ensures sound { IsAuditable draft.old.run → OnOk result (IsAuditable draft.new.run) }
{
    match line.form {
        Form::Accepted(batch) => Ok(batch_turn(place, batch, PhasesLeft::AnyPhase)),
        Form::Refused(batch) => Ok(batch_turn(place, batch, PhasesLeft::NoPhase)),
        Form::Phase { phase, add } => Ok(phase_turn(place, phase, add)),
        _ => readers_turn(draft, line),
    }
}

// Takes a line after the line of a phase or of one of its groups; the next label is at least `low`. It may also be any
// line that ends the phase.
fn groups_turn(
    draft: &mut Draft,
    place: Place,
    low: u32,
    line: &FormLine<'_>,
) -> Result<Turn, AllocError>
    requires { IsWithin line.now.text.now line.now.form }
    ensures step { IfOk result (λ turn. groups_step draft.old.run place low (kind_told line.now.text.now line.now.form) ≡ step_told draft.new.run turn) }
    ensures sound { IsAuditable draft.old.run → OnOk result (IsAuditable draft.new.run) }
{
    let Form::Group { phase, label, from } = line.form else {
        return batches_turn(draft, place, line);
    };
    if phase != place.phase || label < low {
        return Ok(Turn::Stop(Reason::BadLine));
    }
    if !read_pairs(line.text, from, b':', &mut draft.members)? {
        return Ok(Turn::Stop(Reason::BadLine));
    }
    members_turn(&mut draft.run, place, label, &draft.members)
}

// Takes a line after the line of a vertex: that of vertex `next`, or `end` after the last one.
fn vertices_turn(run: &RunText, next: u32, form: Form) -> Turn
    ensures { (text : List ℕ) → vertices_step run.now next (kind_told text form) ≡ step_told run.now result }
{
    match form {
        Form::Vertex(v) => vertex_turn(run, next, v),
        Form::Close if next == run.vertices => Turn::Go(Stage::Closed),
        _ => Turn::Stop(misfit(form)),
    }
}

// Takes what follows `end`: only the end of the input fits.
fn closed_turn(run: &RunText, form: Form) -> Turn
    ensures { (text : List ℕ) → closed_step run.now (kind_told text form) ≡ step_told run.now result }
{
    match form {
        Form::InputEnd => Turn::End,
        _ => Turn::Stop(misfit(form)),
    }
}

/// Takes a line, which may add a group or a reader to the run. After a refusal the run can't be used again.
pub fn turn_at(draft: &mut Draft, stage: Stage, line: &FormLine<'_>) -> Result<Turn, AllocError>
    requires { IsWithin line.now.text.now line.now.form }
    ensures step { IfOk result (λ turn. step_of draft.old.run stage (kind_told line.now.text.now line.now.form) ≡ step_told draft.new.run turn) }
    ensures sound { IsAuditable draft.old.run → OnOk result (IsAuditable draft.new.run) }
{
    match stage {
        Stage::Batches(place) => batches_turn(draft, place, line),
        Stage::Groups { place, low } => groups_turn(draft, place, low, line),
        Stage::Readers => readers_turn(draft, line),
        Stage::VertexLines { next } => Ok(vertices_turn(&draft.run, next, line.form)),
        Stage::Closed => Ok(closed_turn(&draft.run, line.form)),
    }
}
