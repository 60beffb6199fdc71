//! The lines of a run and of an exact text, and the end of any text with a line for each vertex.
//!
//! A call that writes clears the line buffer, fills it with a line and sends it whole. `write_batch_by` may send the
//! lines of a phase's groups in blocks. `write_level_tail` does so with those of the vertices, or sends pieces that
//! threads composed. The sink takes the lines of the definition that the call names. A line of this crate has at most
//! 106 bytes. The vertices of a group or of a reader, and the words of an opening, come on top. The buffer keeps its
//! memory for the next line.
//!
//! After either fault the sink took a prefix of the lines.
//!
//! - `WriteFault`: a write to the sink failed in this call. The buffer is empty, as after success.
//! - `Memory`: no memory for a line. The buffer may hold a part of the line or block, which the next call drops.
//!
//! Floor: documents. From above: sessions and programs write runs, notes and exact texts, each line by the call that
//! names its definition. `specs/` has the definitions: read `Lines` first, then `VertexLines`.
#![tactic(auto)]

mod batches;
mod exact;
mod head;
mod held;
mod level_tail;
mod level_words;
mod members;
mod pairs;
mod phases;
mod readers;
mod refusals;
mod tail;
mod vertices;

pub use batches::{Accepted, write_batch, write_batch_by};
pub use exact::{write_coreness, write_exact_head};
pub use head::{write_end, write_head, write_opening};
pub use level_tail::write_level_tail;
pub use members::Members;
pub use readers::write_reader;
pub use refusals::{write_header_refused, write_note, write_refusal, write_refused};
pub use tail::{VertexLines, write_tail};
pub use vertices::write_vertex;
