//! The reasons for which an input is refused.
ghost use Rattle.std.specs.Prelude.{◌≡◌};

/// The reason for which an input, or a batch of it, is refused.
#[derive(Clone, Copy, Debug, PartialEq, Eq)]
pub enum Reason {
    /// The header doesn't have its form.
    Header,
    /// A line is longer than the line limit.
    LineLong,
    /// A line has none of the forms allowed in its place.
    BadLine,
    /// A line names a vertex that the input doesn't have.
    BadVertex,
    /// There are more items, or more lines of a kind, than are allowed.
    TooMany,
    /// The input ends too early.
    Truncated,
    /// The input is longer than the input limit.
    InputLimit,
    /// The graph would get more edges than are allowed.
    EdgeLimit,
    /// The run would get more phases than are allowed.
    PhaseLimit,
}

impl Reason {
    ghost use Rattle.kc_text.specs.Reasons.{reason_word};

    /// Returns the word for the reason in written texts.
    pub fn word(self) -> &'static [u8]
        ensures { result.now ≡ reason_word self }
    {
        match self {
            Reason::Header => b"header",
            Reason::LineLong => b"line-long",
            Reason::BadLine => b"bad-line",
            Reason::BadVertex => b"bad-vertex",
            Reason::TooMany => b"too-many",
            Reason::Truncated => b"truncated",
            Reason::InputLimit => b"input-limit",
            Reason::EdgeLimit => b"edge-limit",
            Reason::PhaseLimit => b"phase-limit",
        }
    }
}
