//! The replies to a reader: one for each of its questions, in order.

use kc_graph::List;

/// The answer to a question: a vertex and its level.
#[derive(Clone, Copy, Debug, PartialEq, Eq)]
pub struct Reply {
    /// The vertex of the question.
    pub vertex: u32,
    /// Its level at some point of the history.
    pub level: u16,
}

/// Replies in the order of the questions. Contracts see them as a list.
pub type Replies = List<Reply>;
