//! The byte layer: sources and sinks of bytes, the lines, words and numbers of an input, and the lines that are
//! written.
//!
//! Contracts name the bytes that a source has left and a sink has taken, independent of the pieces in which they come
//! and go. Each fault has a cause, which its contract names.
#![tactic(auto)]

mod buf;
mod bytes;
mod calls;
mod command;
mod document_fault;
mod kept;
pub mod laws;
mod line;
mod mem_sink;
mod mem_source;
mod null_sink;
mod number;
mod number_line;
mod open_line;
mod reader;
mod reason;
mod scanner;
mod sink;
mod source;
mod std_sink;
mod std_source;
mod told;
mod whole_lines;
mod window;
mod word;

pub use buf::{LineBuf, SendFault};
pub use bytes::Bytes;
pub use command::Words;
pub use document_fault::DocumentFault;
pub use kept::{give_back, next_kept, text_of};
pub use line::{Body, Line, LineFault};
pub use mem_sink::MemSink;
pub use mem_source::MemSource;
pub use null_sink::NullSink;
pub use number::{next_number, read_number};
pub use number_line::{NamedNumbers, NumberLine, Sign};
pub use reader::LineReader;
pub use reason::Reason;
pub use sink::{Sink, put_all};
pub use source::{Failed, Source};
pub use std_sink::StdSink;
pub use std_source::StdSource;
pub use told::{Told, Untold};
pub use whole_lines::first_numbers;
pub use word::{is_named, is_skipped, next_word, split_word};
