//! The state of each seat of the table. No value of these types is made: contracts and the store's rule name them.
use kc_groups::PhasePlan;
use kc_history::Entry;
use std::collections::LinkedList;

/// A range of the moves of a group, lent to a marker.
pub struct Loan {
    /// The group's place in the plan.
    pub group: u32,
    /// The first move of the range.
    pub from: u32,
    /// The move after the last.
    pub to: u32,
    /// Whether the group was published when the range was lent.
    pub published: bool,
    /// The number of the loan; no two loans have the same number.
    pub number: u64,
}

/// The state of the writer.
pub struct WriterState {
    /// The number of vertices.
    pub vertices: u32,
    /// The number of phases before the history.
    pub before: u32,
    /// The number of the last begun phase: `before` and the phases of the history.
    pub phase: u32,
    /// The plan of the open phase. It has no group until a phase was begun.
    pub plan: PhasePlan,
    /// The number of published groups of the plan.
    pub published: u32,
    /// The history.
    pub history: LinkedList<Entry>,
    /// The vertices whose moves are noted: their old level is stored.
    pub noted: LinkedList<u32>,
    /// The vertices whose moves are marked: their new level, label and phase are stored.
    pub marked: LinkedList<u32>,
    /// The vertices whose moves are cleared: their new level is stored with phase 0, as for a vertex without a move.
    pub cleared: LinkedList<u32>,
    /// The parts of the history that passes had seen when they were taken in.
    pub joined: LinkedList<LinkedList<Entry>>,
    /// The loans of the markers that are out.
    pub loans: LinkedList<Loan>,
    /// The number of loans so far.
    pub lent: u64,
}

/// The state of a marker.
pub struct MarkerState {
    /// The number of vertices.
    pub vertices: u32,
    /// The number of the open phase.
    pub phase: u32,
    /// The plan of the open phase.
    pub plan: PhasePlan,
    /// The range that is lent to it.
    pub loan: Loan,
    /// The vertices whose moves it noted.
    pub noted: LinkedList<u32>,
    /// The vertices whose moves it marked.
    pub marked: LinkedList<u32>,
    /// The vertices whose moves it cleared.
    pub cleared: LinkedList<u32>,
}

/// The state of a pass between the loads of a read.
pub struct Pending {
    /// The number of vertices.
    pub vertices: u32,
    /// The part of the history that the pass had seen before the read.
    pub seen: LinkedList<Entry>,
    /// The length of the history when the pass was made.
    pub made: u64,
    /// The vertex that is read.
    pub vertex: u32,
    /// The word that was loaded for the vertex.
    pub word: u64,
    /// The history at the first load.
    pub from: LinkedList<Entry>,
}

/// The use of a seat of the table, with its state.
pub enum Role {
    /// No use any more.
    Spent,
    /// The writer's.
    Writes(WriterState),
    /// A marker's.
    Marks(MarkerState),
    /// A pass's, with the number of vertices and the part of the history that it has seen. The last number is the
    /// length of the history when the pass was made.
    Reads(u32, LinkedList<Entry>, u64),
    /// A pass's after the first load of a read.
    Looks(Pending),
    /// A pass's after the second load, if the stamp was below the word's phase.
    FoundBelow(Pending),
}
