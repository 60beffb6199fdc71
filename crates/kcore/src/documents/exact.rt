//! The command `exact`: the coreness of each vertex after the batches of an input.
ghost use Rattle.std.specs.Prelude.{◌≡◌, false, length};
ghost use Rattle.kc_graph.specs.declared.limits.TheConstants.{MAX_EDGES};
ghost use Rattle.kc_engine.specs.States.{IsSound};
ghost use Rattle.kcore.specs.ExactText.{exact_vertex_text, IsExact};

use crate::documents::{Document, LastState};
use kc_bound::exact_coreness;
use kc_engine::Engine;
use kc_report::{VertexLines, write_coreness, write_exact_head, write_tail};
use kc_text::{LineBuf, SendFault, Sink};
use std::alloc::Global;

// The lines of the vertices of an engine's graph.
#[derive(Drop)]
struct ExactLines<'a> {
    // The engine, which hasn't halted.
    engine: &'a Engine,
    // The coreness of each vertex.
    corenesses: &'a [u32],
}

impl VertexLines for ExactLines<'_> {
    ghost use Rattle.std.specs.Prelude.{◌<◌};

    ghost line = { λ lines v. exact_vertex_text lines.engine.now.state lines.corenesses.now v };

    ghost has_line = { λ lines v. (lines.engine.now.halted ≡ false) × IsSound MAX_EDGES lines.engine.now.state × (length lines.corenesses.now ≡ lines.engine.now.state.graph.vertices) × (v < lines.engine.now.state.graph.vertices) };

    fn write_line<K: Sink>(
        &self,
        buf: &mut LineBuf,
        sink: &mut K,
        v: u32,
    ) -> Result<(), SendFault> {
        let engine = self.engine;
        let estimate = engine.thresholds().estimate(engine.levels().get(v));
        write_coreness(buf, sink, v, self.corenesses[v as usize], estimate)
    }
}

/// The document of `exact`: the coreness of each vertex, beside the bounds and the estimate of its level.
pub struct Exact;

impl Document for Exact {
    ghost is_document = { IsExact };

    fn write<K: Sink>(alloc: Global, last: &LastState<'_>, sink: &mut K) -> Result<(), SendFault> {
        let engine = last.engine;
        let n = engine.graph().vertices();
        let corenesses = exact_coreness(alloc, engine.graph())?;
        let mut buf = LineBuf::new(alloc);
        write_exact_head(&mut buf, sink, n)?;
        let lines = ExactLines {
            engine,
            corenesses: corenesses.as_slice(),
        };
        write_tail(&mut buf, sink, n, &lines)
    }

    fn has_documents() {}
}
