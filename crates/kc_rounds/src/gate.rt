//! A gate learns where a run is, so that a test can watch a thread there or hold it.

use crate::Spot;

/// Watches a run, which calls it at each spot that it reaches.
///
/// A gate promises nothing but to return: no result of the crates that call it depends on what it does.
pub trait Gate {
    /// Is called at each spot, by the thread that has reached it.
    fn at(&self, spot: Spot);
}

/// The gate that returns at once.
#[derive(Clone, Copy, Debug, PartialEq, Eq)]
pub struct OpenGate;

impl OpenGate {
    /// Makes the gate. Takes no memory.
    pub fn new() -> Self {
        OpenGate
    }
}

impl Gate for OpenGate {
    fn at(&self, _spot: Spot) {}
}
