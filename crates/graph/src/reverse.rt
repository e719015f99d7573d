//! A graph with its edges turned round.

ghost use Rattle.std.specs.Prelude.{◌<◌, length, IfOk, OnOk};
ghost use Rattle.std.specs.List.{All};
ghost use Rattle.graph.specs.steps.Reverse.{IsReverse, AddsEdges};

use crate::graph::Graph;
use std::alloc::{AllocError, Global};

/// Adds an edge from each vertex of a row to this one.
fn add_edges_to(back: &mut Graph, row: &[usize], to: usize) -> Result<(), AllocError>
    requires row { All (λ v. v < length back.old) row.now }
    requires to { to < length back.old }
    ensures { OnOk result (AddsEdges back.old row.now to back.new) }
{
    for from in row {
        back.add(*from, to)?;
    }
    Ok(())
}

/// The graph with its edges turned round.
///
/// # Errors
/// Where memory runs out.
pub fn reversed(alloc: Global, graph: &Graph) -> Result<Graph, AllocError>
    ensures { IfOk result (IsReverse graph.now) }
{
    let mut back = Graph::new(alloc, graph.len())?;
    for vertex in 0..graph.len() {
        add_edges_to(&mut back, graph.successors(vertex), vertex)?;
    }
    Ok(back)
}
