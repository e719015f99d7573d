//! An order in which successors come first, or a vertex on a cycle.

ghost use Rattle.std.specs.Prelude.{◌<◌, length, IfOk, MatchOption};
ghost use Rattle.std.specs.List.{All, Contains};
ghost use Rattle.graph.specs.Answer.{Arranges};
ghost use Rattle.graph.specs.Order.{ComesAfter, ComesAfterOrCycles};
ghost use Rattle.graph.specs.Reaches.{OnCycle};

use crate::cycle::least_on_cycle;
use crate::descent::finishing_order;
use crate::graph::Graph;
use crate::visited::Visited;
use std::alloc::{AllocError, Global};

/// The vertices of a graph in an order, or why there is none.
#[derive(Drop)]
pub enum Arrangement {
    /// Each vertex once, after all of its successors.
    Order(Vec<usize>),
    /// The least vertex that is on a cycle.
    Cycle(usize),
}

/// The first of a row that is not finished.
fn first_late(row: &[usize], finished: &Visited) -> Option<usize>
    ensures { MatchOption result
        (All (Contains finished.now.items) row.now)
        (λ b. Contains row.now b × (¬ Contains finished.now.items b)) }
{
    for vertex in row {
        if !finished.has(*vertex) {
            return Some(*vertex);
        }
    }
    None
}

/// The first vertex of an order that does not come after all of its successors. It is on a cycle.
fn first_on_cycle(
    alloc: Global,
    graph: &Graph,
    order: &[usize],
) -> Result<Option<usize>, AllocError>
    requires within { All (λ v. v < length graph.now) order.now }
    requires after { ComesAfterOrCycles graph.now order.now }
    ensures { IfOk result (λ found. MatchOption found (ComesAfter graph.now order.now) (OnCycle graph.now)) }
{
    let mut finished = Visited::new(alloc, graph.len())?;
    for vertex in order {
        match first_late(graph.successors(*vertex), &finished) {
            Some(_) => return Ok(Some(*vertex)),
            None => {
                finished.add(*vertex)?;
            }
        }
    }
    Ok(None)
}

/// All vertices, each after its successors, or the least vertex on a cycle.
///
/// # Errors
/// Where memory runs out.
pub fn arrange(alloc: Global, graph: &Graph) -> Result<Arrangement, AllocError>
    ensures { IfOk result (Arranges graph.now) }
{
    let order = finishing_order(alloc, graph)?;
    match first_on_cycle(alloc, graph, order.as_slice())? {
        None => Ok(Arrangement::Order(order)),
        Some(known) => {
            let vertex = least_on_cycle(alloc, graph, order.as_slice(), known)?;
            Ok(Arrangement::Cycle(vertex))
        }
    }
}
