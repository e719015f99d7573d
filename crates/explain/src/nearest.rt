//! For each vertex of a graph the nearest of the bearers that some vertices have.

ghost use Rattle.std.specs.Prelude.{◌≡◌, ◌<◌, [], length, replicate, IfOk, OnOk};
ghost use Rattle.std.specs.List.{All, Contains};
ghost use Rattle.explain.specs.steps.Nearest.{AreNearest, HaveVertices};
ghost use Rattle.explain.specs.steps.Found.{AddsAll, AreFound, IsIn, no_pair};

use crate::bearers::{Bearer, Pair, VertexBearer};
use graph::Graph;
use std::alloc::{AllocError, Global};

/// Gives a vertex a bearer, where that says more than those that it has, and notes it.
fn add(
    vertex: usize,
    bearer: Bearer,
    pairs: &mut [Pair],
    found: &mut Vec<VertexBearer>,
) -> Result<(), AllocError>
    requires vertex { vertex < length pairs.old }
    requires are { AreFound pairs.old found.old.items }
    ensures are { OnOk result (AreFound pairs.new found.new.items) }
    ensures len { length pairs.new ≡ length pairs.old }
    ensures adds { OnOk result (AddsAll (λ s. (s.vertex ≡ vertex) × (s.bearer ≡ bearer)) pairs.old found.old.items
        pairs.new found.new.items) }
{
    if let Some(pair) = pairs[vertex].with(bearer) {
        found.push(VertexBearer { vertex, bearer })?;
        pairs[vertex] = pair;
    }
    Ok(())
}

/// Gives vertices their bearers.
fn add_all(
    sources: &[VertexBearer],
    pairs: &mut [Pair],
    found: &mut Vec<VertexBearer>,
) -> Result<(), AllocError>
    requires vertices { HaveVertices sources.now (length pairs.old) }
    requires are { AreFound pairs.old found.old.items }
    ensures are { OnOk result (AreFound pairs.new found.new.items) }
    ensures len { length pairs.new ≡ length pairs.old }
    ensures adds { OnOk result (AddsAll (Contains sources.now) pairs.old found.old.items pairs.new found.new.items) }
{
    for source in sources {
        add(source.vertex, source.bearer, pairs, found)?;
    }
    Ok(())
}

/// Gives some vertices a bearer.
fn add_vertices(
    vertices: &[usize],
    bearer: Bearer,
    pairs: &mut [Pair],
    found: &mut Vec<VertexBearer>,
) -> Result<(), AllocError>
    requires vertices { All (λ v. v < length pairs.old) vertices.now }
    requires are { AreFound pairs.old found.old.items }
    ensures are { OnOk result (AreFound pairs.new found.new.items) }
    ensures len { length pairs.new ≡ length pairs.old }
    ensures adds { OnOk result
        (AddsAll (IsIn vertices.now bearer) pairs.old found.old.items pairs.new found.new.items) }
{
    for vertex in vertices {
        add(*vertex, bearer, pairs, found)?;
    }
    Ok(())
}

/// Gives each vertex the bearers of those that it leads to, the nearest first, where each source has its own.
fn spread(
    back: &Graph,
    sources: &[VertexBearer],
    pairs: &mut [Pair],
    found: &mut Vec<VertexBearer>,
) -> Result<(), AllocError>
    requires vertices { HaveVertices sources.now (length back.now) }
    requires pairs { pairs.old ≡ replicate (length back.now) no_pair }
    requires none { found.old.items ≡ [] }
    ensures { OnOk result (AreNearest back.now sources.now pairs.new) }
{
    add_all(sources, pairs, found)?;
    let mut next = 0;
    while next < found.len() {
        let VertexBearer { vertex, bearer } = found[next];
        add_vertices(back.successors(vertex), bearer, pairs, found)?;
        next += 1;
    }
    Ok(())
}

/// For each vertex of a graph, of which this is the one with its edges turned round, the nearest bearer that it
/// reaches, and one of another class of field, if it reaches such.
///
/// # Errors
/// Where memory runs out.
pub(crate) fn nearest(
    alloc: Global,
    back: &Graph,
    sources: &[VertexBearer],
) -> Result<Vec<Pair>, AllocError>
    requires vertices { HaveVertices sources.now (length back.now) }
    ensures { IfOk result (λ pairs. AreNearest back.now sources.now pairs.items) }
{
    let mut pairs = vec![in alloc; Pair::none(); back.len()]?;
    let mut found = Vec::new(alloc);
    spread(back, sources, &mut pairs, &mut found)?;
    Ok(pairs)
}
