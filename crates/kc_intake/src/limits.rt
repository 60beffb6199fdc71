//! The most updates that wait, the most clients, and the most items of one client.

/// The greatest capacity of an intake.
pub const MAX_CAPACITY: u32 = 65_536;

/// The most clients of an intake.
pub const MAX_CLIENTS: u32 = 64;

/// The most items that a client sends.
pub const MAX_SENT: u32 = u32::MAX;
