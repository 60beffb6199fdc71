//! A line in its place: each call returns what the line says, or why it doesn't fit there.
ghost use Rattle.std.specs.Prelude.{◌≡◌, ◌<◌, ◌≤◌, ◌^◌, IfOk};
ghost use Rattle.kc_cert.specs.Documents.{misfit, magic_of, profile_of, vertices_of, edge_count_of, edge_of, level_of, close_of, input_end_of};

use crate::token::Kind;
use kc_graph::{Edge, MAX_EDGES, MAX_VERTICES};
use kc_levels::Profile;
use kc_text::Reason;

// Returns why a line of this kind doesn't fit in the place of another kind.
fn misfit(kind: Kind) -> Reason
    ensures { result ≡ misfit kind }
{
    match kind {
        Kind::TooLong => Reason::LineLong,
        Kind::Limit => Reason::InputLimit,
        Kind::InputEnd => Reason::Truncated,
        _ => Reason::BadLine,
    }
}

/// Succeeds if the line is `kcore-cert 1`.
pub fn magic_of(kind: Kind) -> Result<(), Reason>
    ensures { result ≡ magic_of kind }
{
    match kind {
        Kind::Magic => Ok(()),
        _ => Err(misfit(kind)),
    }
}

/// Returns the profile of the line.
pub fn profile_of(kind: Kind) -> Result<Profile, Reason>
    ensures { result ≡ profile_of kind }
{
    match kind {
        Kind::Profile(profile) => Ok(profile),
        _ => Err(misfit(kind)),
    }
}

/// Returns the number of vertices of the line, 1 to `MAX_VERTICES`.
pub fn vertices_of(kind: Kind) -> Result<u32, Reason>
    ensures number { result ≡ vertices_of kind }
    ensures range { IfOk result (λ n. (1 ≤ n) × (n ≤ MAX_VERTICES)) }
{
    match kind {
        Kind::Vertices(n) if 1 <= n && n <= MAX_VERTICES => Ok(n),
        _ => Err(misfit(kind)),
    }
}

/// Returns the number of edges of the line, at most `MAX_EDGES`.
pub fn edge_count_of(kind: Kind) -> Result<u32, Reason>
    ensures number { result ≡ edge_count_of kind }
    ensures range { IfOk result (λ m. m ≤ MAX_EDGES) }
{
    match kind {
        Kind::EdgeCount(count) if count <= MAX_EDGES => Ok(count),
        _ => Err(misfit(kind)),
    }
}

/// Returns the edge of the line: its vertices are below `n`, and it isn't before the pair `low`.
#[inline(always)]
pub fn edge_of(n: u32, low: (u32, u32), kind: Kind) -> Result<Edge, Reason>
    ensures { result ≡ edge_of n low.0 low.1 kind }
{
    match kind {
        Kind::Edge(a, b) if a >= n || b >= n => Err(Reason::BadVertex),
        Kind::Edge(a, b) if a < b && (low.0 < a || (low.0 == a && low.1 <= b)) => Ok(Edge { a, b }),
        _ => Err(misfit(kind)),
    }
}

/// Returns the level of the line: it is of vertex `next` below `n`, and at most `top`.
#[inline(always)]
pub fn level_of(n: u32, top: u16, next: u32, kind: Kind) -> Result<u16, Reason>
    ensures { result ≡ level_of n top next kind }
{
    match kind {
        Kind::Level(v, _) if v >= n => Err(Reason::BadVertex),
        Kind::Level(v, level) if v == next && level <= u32::from(top) => Ok(level as u16),
        _ => Err(misfit(kind)),
    }
}

/// Succeeds if the line is `end`.
pub fn close_of(kind: Kind) -> Result<(), Reason>
    ensures { result ≡ close_of kind }
{
    match kind {
        Kind::Close => Ok(()),
        _ => Err(misfit(kind)),
    }
}

/// Succeeds if the input ends here.
pub fn input_end_of(kind: Kind) -> Result<(), Reason>
    ensures { result ≡ input_end_of kind }
{
    match kind {
        Kind::InputEnd => Ok(()),
        _ => Err(misfit(kind)),
    }
}
