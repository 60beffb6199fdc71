//! The limits of an input and its lines for the commands of `kcore`.

/// The most bytes of a line of an input.
pub const LINE_LIMIT: u32 = 65_536;

/// The most bytes of a line of a run text for `audit`: a line may be as long as the input.
pub const RUN_LINE_LIMIT: u32 = 1_073_741_824;

/// The most bytes of an input.
pub const INPUT_LIMIT: u32 = 1_073_741_824;
