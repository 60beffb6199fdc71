//! A group line as it is stored in a list of lines whose members share one `Vec`.

/// A group line without its members: the number of its phase, its label, and the end of its members. All lines share
/// one list of members.
#[derive(Clone, Copy, Debug)]
pub struct Head {
    /// The number of the line's phase.
    pub phase: u32,
    /// The line's label.
    pub label: u32,
    /// The place in the list of members after the last member of the line. The members of the next line begin there.
    pub end: usize,
}
