//! Reads a certificate line by line into a graph and its levels, or refuses it at its first line that doesn't fit.
ghost use Rattle.std.specs.Prelude.{ℕ, ◌≤◌, length, IfOk, IfSome};
ghost use Rattle.kc_text.specs.Causes.{DocumentCause};
ghost use Rattle.kc_graph.specs.declared.limits.TheConstants.{MAX_EDGES, MAX_VERTICES};
ghost use Rattle.kc_cert.specs.Tokens.{tokens_left};
ghost use Rattle.kc_cert.specs.Documents.{AtMagic, AtBody, document_of};
ghost use Rattle.kc_cert.specs.private.Reads.{at_edges, at_levels, at_close, Answers, Fits, Reaches};
ghost use Rattle.kc_cert.specs.Reads.{IsAnswer};
ghost use Rattle.kc_cert.specs.Texts.{IsCertificate};

use crate::Certificate;
use crate::filling::{add_edge, let_in};
use crate::token::next_token;
use crate::turn::{
    close_of, edge_count_of, edge_of, input_end_of, level_of, magic_of, profile_of, vertices_of,
};
use kc_graph::{Graph, MAX_EDGES, MAX_VERTICES};
use kc_levels::{Levels, Profile, Thresholds};
use kc_text::{DocumentFault, LineReader, Reason, Source};
use std::alloc::Global;

/// Why there is no certificate.
pub type CertFault = DocumentFault;

// Returns what the line with this number says if it fits in its place, and refuses the line otherwise.
#[inline(always)]
fn fit_at<T: Drop>(line: u32, found: Result<T, Reason>) -> Result<T, CertFault>
    ensures fits { Fits line found result }
    ensures cause { (count : ℕ) → DocumentCause count count result }
{
    match found {
        Ok(value) => Ok(value),
        Err(reason) => Err(CertFault::Refused { line, reason }),
    }
}

// What the first lines of a certificate say of its body.
#[derive(Clone, Copy)]
struct Head {
    // The profile of the levels.
    profile: Profile,
    // The number of vertices, 1 to `MAX_VERTICES`.
    n: u32,
    // The number of edges, at most `MAX_EDGES`.
    edges: u32,
    ghost some: { 1 ≤ n },
    ghost small: { n ≤ MAX_VERTICES },
    ghost few: { edges ≤ MAX_EDGES },
}

// Reads the four lines before the edges.
fn read_head<S: Source>(
    alloc: Global,
    reader: &mut LineReader,
    src: &mut S,
) -> Result<Head, CertFault>
    ensures head { Reaches AtMagic (λ h. at_edges h.profile h.n h.edges) (tokens_left reader.old (S.left src.old)) (tokens_left reader.new (S.left src.new)) result }
    ensures cause { DocumentCause (S.faults src.old) (S.faults src.new) result }
{
    let first = next_token(alloc, reader, src)?;
    fit_at(first.number, magic_of(first.kind))?;
    let second = next_token(alloc, reader, src)?;
    let profile = fit_at(second.number, profile_of(second.kind))?;
    let third = next_token(alloc, reader, src)?;
    let n = fit_at(third.number, vertices_of(third.kind))?;
    let fourth = next_token(alloc, reader, src)?;
    let edges = fit_at(fourth.number, edge_count_of(fourth.kind))?;
    Ok(Head { profile, n, edges })
}

// Reads the edges.
fn read_edges<S: Source>(
    alloc: Global,
    reader: &mut LineReader,
    src: &mut S,
    head: Head,
) -> Result<Graph, CertFault>
    ensures edges { Reaches (at_edges head.profile head.n head.edges) (at_levels head.profile) (tokens_left reader.old (S.left src.old)) (tokens_left reader.new (S.left src.new)) result }
    ensures few { IfOk result (λ graph. length graph.edges ≤ MAX_EDGES) }
    ensures cause { DocumentCause (S.faults src.old) (S.faults src.new) result }
{
    let n = head.n;
    let mut graph = Graph::new(alloc, n)?;
    let mut waiting = Vec::new(alloc);
    // The least pair that the next edge may be.
    let mut low = (0, 0);
    for i in 0..head.edges {
        let token = next_token(alloc, reader, src)?;
        let edge = fit_at(token.number, edge_of(n, low, token.kind))?;
        add_edge(alloc, &mut graph, &mut waiting, edge)?;
        low = (edge.a, edge.b + 1);
    }
    let_in(alloc, &mut graph, &mut waiting)?;
    Ok(graph)
}

// Reads the level of each vertex.
fn read_levels<S: Source>(
    alloc: Global,
    reader: &mut LineReader,
    src: &mut S,
    profile: Profile,
    graph: &Graph,
) -> Result<Levels, CertFault>
    requires { length graph.now.edges ≤ MAX_EDGES }
    ensures levels { Reaches (at_levels profile graph.now) (at_close profile graph.now) (tokens_left reader.old (S.left src.old)) (tokens_left reader.new (S.left src.new)) result }
    ensures sound { IfOk result (λ levels. IsCertificate (record { profile = profile; graph = graph.now; levels = levels })) }
    ensures cause { DocumentCause (S.faults src.old) (S.faults src.new) result }
{
    let n = graph.vertices();
    let top = Thresholds::new(alloc, profile, n)?.top();
    let mut levels = Levels::zeros(alloc, n)?;
    for v in 0..n {
        let token = next_token(alloc, reader, src)?;
        let level = fit_at(token.number, level_of(n, top, v, token.kind))?;
        levels.set(v, level);
    }
    Ok(levels)
}

// Reads `end`, and then the end of the input.
fn read_end<S: Source>(
    alloc: Global,
    reader: &mut LineReader,
    src: &mut S,
    cert: Certificate,
) -> Result<Certificate, CertFault>
    requires { IsCertificate cert }
    ensures document { Answers (AtBody cert 0 0 0 0) (tokens_left reader.old (S.left src.old)) result }
    ensures sound { IfOk result IsCertificate }
    ensures cause { DocumentCause (S.faults src.old) (S.faults src.new) result }
{
    let close = next_token(alloc, reader, src)?;
    fit_at(close.number, close_of(close.kind))?;
    let last = next_token(alloc, reader, src)?;
    fit_at(last.number, input_end_of(last.kind))?;
    Ok(cert)
}

/// Reads a certificate up to the end of the input (`document_of` of `specs/Documents`).
///
/// The lines are `kcore-cert 1`, the profile, the two counts, the edges in ascending order, a level for each vertex in
/// order, and `end`. The counts are those of vertices and of edges. Empty lines and comments are skipped anywhere.
///
/// The certificate is within its limits, whatever the source tells (`IsCertificate` of `specs/Texts`), so `verify` may
/// be called. It has 1 to `MAX_VERTICES` vertices, at most `MAX_EDGES` edges, and one level for each vertex, none above
/// the top of the profile.
///
/// Fails with one of three faults. After each the reader isn't used again, since lines of the certificate are gone.
///
/// - `Refused`: the first line that doesn't fit, with its reason. `BadVertex` is for an `edge` or `level` line in its
///   place, with two numbers, that names a vertex of n or more. An `edge` line is `BadLine` if a level is due.
/// - `ReadFault`: a read failed. It comes only if the source's count of faults rose.
/// - `Memory`: no memory for a line, the graph or the levels.
///
/// Costs one pass over the lines, and `Graph::insert_all` for each 1,048,576 edges. Takes the memory of the graph and
/// the levels once the number of vertices was read. Besides it takes the memory of one line and of 1,048,576 edges.
pub fn read_certificate<S: Source>(
    alloc: Global,
    reader: &mut LineReader,
    src: &mut S,
) -> Result<Certificate, CertFault>
    ensures document { IfSome (tokens_left reader.old (S.left src.old)) (λ ts. IsAnswer result (document_of ts)) }
    ensures sound { IfOk result IsCertificate }
    ensures cause { DocumentCause (S.faults src.old) (S.faults src.new) result }
{
    let head = read_head(alloc, reader, src)?;
    let graph = read_edges(alloc, reader, src, head)?;
    let levels = read_levels(alloc, reader, src, head.profile, &graph)?;
    let cert = Certificate {
        profile: head.profile,
        graph,
        levels,
    };
    read_end(alloc, reader, src, cert)
}
