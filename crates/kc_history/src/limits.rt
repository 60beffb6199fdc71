//! The range of phase numbers.

/// The greatest number of a phase. Phases are numbered from 1.
pub const MAX_PHASE: u32 = 16_777_215;
