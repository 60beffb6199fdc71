//! The answer of an audit: the replies of all readers are explained, or the first reply up to which they aren't.

/// What an audit says of a run.
#[derive(Clone, Copy, Debug, PartialEq, Eq)]
pub enum AuditVerdict {
    /// The group lines explain the replies of each reader.
    Explained,
    /// The group lines don't explain the replies of reader `reader`, counted from 0, and explain those of each reader
    /// before it. Its reply with the number `ask`, counted from 1, is the first up to which its replies aren't
    /// explained.
    Unexplained { reader: u32, ask: u32 },
}
