//! Vertices on cycles.

ghost use Rattle.std.specs.Prelude.{◌≡◌, ℕ, ◌<◌, ◌↔◌, length, slice_index, IsTrue, IfOk};
ghost use Rattle.std.specs.List.{All, Contains};
ghost use Rattle.graph.specs.Components.{AreComponents};
ghost use Rattle.graph.specs.Reaches.{OnCycle, IsLeastOnCycle};
ghost use Rattle.graph.specs.steps.Finishing.{IsFinishingOrder};

use crate::components::{Components, components_by};
use crate::graph::Graph;
use std::alloc::{AllocError, Global};

/// Whether one of a row is in the component of this number.
fn leads_into(row: &[usize], components: &Components, number: usize) -> bool
    requires { All (λ v. v < length components.now.numbers) row.now }
    ensures { IsTrue result
        ↔ ((b : ℕ) × Contains row.now b × (slice_index components.now.numbers b ≡ number)) }
{
    for vertex in row {
        if components.number(*vertex) == number {
            return true;
        }
    }
    false
}

/// Whether a vertex is on a cycle, by the graph's components: it has an edge into its own.
fn is_on_cycle(graph: &Graph, components: &Components, vertex: usize) -> bool
    requires components { AreComponents graph.now components.now }
    requires vertex { vertex < length graph.now }
    ensures { IsTrue result ↔ OnCycle graph.now vertex }
{
    leads_into(
        graph.successors(vertex),
        components,
        components.number(vertex),
    )
}

/// The least vertex on a cycle, where one is known.
fn least_by(graph: &Graph, components: &Components, known: usize) -> usize
    requires components { AreComponents graph.now components.now }
    requires known { OnCycle graph.now known }
    ensures { IsLeastOnCycle graph.now result }
{
    for vertex in 0..known {
        if is_on_cycle(graph, components, vertex) {
            return vertex;
        }
    }
    known
}

/// The least vertex on a cycle, where one is known, and an order in which a descent in depth finishes the vertices.
pub(crate) fn least_on_cycle(
    alloc: Global,
    graph: &Graph,
    order: &[usize],
    known: usize,
) -> Result<usize, AllocError>
    requires order { IsFinishingOrder graph.now order.now }
    requires known { OnCycle graph.now known }
    ensures { IfOk result (IsLeastOnCycle graph.now) }
{
    let components = components_by(alloc, graph, order)?;
    Ok(least_by(graph, &components, known))
}
