//! How long an input and its lines may be for `kserve`, and how many updates its intake holds.

/// The greatest number of bytes of a line of an input.
pub const LINE_LIMIT: u32 = 65_536;

/// The greatest number of bytes of an input.
pub const INPUT_LIMIT: u32 = 1_073_741_824;

/// How many updates the intake holds at most, and so the greatest number of updates of a batch.
pub const CAPACITY: u32 = 1024;
