//! Strongly connected components: which vertices reach each other.

ghost use Rattle.std.specs.Prelude.{◌≡◌, ◌<◌, length, slice_index, IfOk};
ghost use Rattle.graph.specs.Components.{AreComponents};
ghost use Rattle.graph.specs.steps.Finishing.{IsFinishingOrder, IsTurnedOrder};
ghost use Rattle.graph.specs.steps.Numbering.{AreNumbered};

use crate::descent::finishing_order;
use crate::graph::Graph;
use crate::numbering::number_all;
use crate::reverse::reversed;
use crate::visited::Visited;
use std::alloc::{AllocError, Global};
use std::marker::Model;

/// The strongly connected components of a graph: vertices are in one component where they reach each other.
#[derive(Drop)]
pub struct Components {
    /// By vertex: the number of its component.
    numbers: Vec<usize>,
    /// Each vertex once, by ascending numbers.
    order: Visited,
}

impl Model for Components {
    ghost use Rattle.graph.specs.Components.{Parts};

    ghost Value = { Parts };

    ghost view = { λ c. record { numbers = c.numbers.items; order = c.order.items } };
}

impl Components {
    /// How many vertices the graph has.
    pub fn len(&self) -> usize
        ensures { result ≡ length self.now.numbers }
    {
        self.numbers.len()
    }

    /// The number of a vertex's component. No edge leads to a lower one.
    pub fn number(&self, vertex: usize) -> usize
        requires { vertex < length self.now.numbers }
        ensures { result ≡ slice_index self.now.numbers vertex }
    {
        self.numbers[vertex]
    }

    /// Each vertex once, by ascending numbers: so those of a component stand together, before what they reach.
    pub fn order(&self) -> &[usize]
        ensures { result.now ≡ self.now.order }
    {
        self.order.items()
    }
}

/// The strongly connected components of a graph, in a time that depends on vertices and edges alone.
///
/// # Errors
/// Where memory runs out.
pub fn components_of(alloc: Global, graph: &Graph) -> Result<Components, AllocError>
    ensures { IfOk result (AreComponents graph.now) }
{
    let order = finishing_order(alloc, graph)?;
    components_by(alloc, graph, order.as_slice())
}

/// The components of a graph by an order in which a descent in depth finishes the vertices (Kosaraju's algorithm).
pub(crate) fn components_by(
    alloc: Global,
    graph: &Graph,
    order: &[usize],
) -> Result<Components, AllocError>
    requires { IsFinishingOrder graph.now order.now }
    ensures { IfOk result (AreComponents graph.now) }
{
    let back = reversed(alloc, graph)?;
    numbered(alloc, &back, order)
}

/// The components of a graph, from the graph with its edges turned round.
fn numbered(alloc: Global, back: &Graph, order: &[usize]) -> Result<Components, AllocError>
    requires { IsTurnedOrder back.now order.now }
    ensures { IfOk result (AreNumbered back.now) }
{
    let mut numbers = vec![in alloc; 0usize; back.len()]?;
    let mut seen = Visited::new(alloc, back.len())?;
    number_all(back, order, &mut seen, numbers.as_mut_slice())?;
    Ok(Components {
        numbers,
        order: seen,
    })
}
