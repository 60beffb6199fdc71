//! A submitted item with its client and its place among that client's items, and the two refusals of an intake.

use kc_graph::Item;
use thiserror::Error;

/// An item that a client submitted.
#[derive(Clone, Copy, Debug, PartialEq, Eq)]
pub struct Update {
    /// The client's number, from 0.
    pub client: u32,
    /// The number of items that the client sent before.
    pub serial: u32,
    /// The item.
    pub item: Item,
}

/// The intake was full.
#[derive(Clone, Copy, Debug, PartialEq, Eq, Error)]
#[error("the intake is full")]
pub struct Full;

/// The intake was empty.
#[derive(Clone, Copy, Debug, PartialEq, Eq, Error)]
#[error("the intake is empty")]
pub struct Empty;
