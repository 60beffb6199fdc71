//! A line of an input, or how the input ended.
use crate::Bytes;
use std::alloc::AllocError;
use thiserror::Error;

/// The content of a line, or how the input ended in its place.
#[derive(Drop, Debug)]
pub enum Body {
    /// A line, without its line feed and without one carriage return before the line feed.
    Text(Bytes),
    /// A line with more bytes before its line feed than the line limit allows.
    TooLong,
    /// The input goes on past the input limit within this line.
    Limit,
    /// The input ended before this line.
    End,
}

/// A line of an input, or how the input ended.
#[derive(Drop, Debug)]
pub struct Line {
    /// The number of the line, counted from 1.
    pub number: u32,
    /// The content of the line, or how the input ended in its place.
    pub body: Body,
}

/// How an input ended, and at which line.
#[derive(Clone, Copy, Debug, PartialEq, Eq)]
pub enum LastLine {
    AtLimit(u32),
    AtEnd(u32),
}

/// The reasons for which no line was returned.
#[derive(Drop, Debug, Error)]
pub enum LineFault {
    /// A read of the source failed.
    #[error("a read of the source failed")]
    ReadFault,
    /// There was no memory for the line.
    #[error(transparent)]
    Memory(AllocError),
}
