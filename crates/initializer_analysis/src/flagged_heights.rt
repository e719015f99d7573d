//! How many flagged vertices stand below one another, found by components.

ghost use Rattle.std.specs.Prelude.{◌≡◌, ◌<◌, false, length, replicate, slice_index, IfOk};
ghost use Rattle.std.specs.List.{All};
ghost use Rattle.graph.specs.Components.{AreComponents};
ghost use Rattle.graph.specs.Rows.{successors_of};
ghost use Rattle.initializer_analysis.specs.steps.Heights.{AreHeights};
ghost use Rattle.initializer_analysis.specs.steps.Raised.{HaveFlagged, top_of, HaveRoom, IsHighest};
ghost use Rattle.initializer_analysis.specs.steps.Raised.{AreRaisedFrom, AreRaised};

use crate::vertex_tables::by_vertex;
use graph::{Components, Graph};
use std::alloc::{AllocError, Global};

/// Flags those components that have a flagged vertex.
fn flag_components(components: &Components, flagged: &[bool], table: &mut [bool])
    requires numbers { All (λ n. n < length table.old) components.now.numbers }
    requires flagged { length flagged.now ≡ length components.now.numbers }
    requires none { table.old ≡ replicate (length components.now.numbers) false }
    ensures { HaveFlagged components.now.numbers flagged.now (length flagged.now) table.new }
{
    for vertex in 0..components.len() {
        if flagged[vertex] {
            table[components.number(vertex)] = true;
        }
    }
}

/// How high a component is, with its own flagged vertices.
fn top(heights: &[usize], flagged: &[bool], number: usize) -> usize
    requires number { number < length heights.now }
    requires flagged { length flagged.now ≡ length heights.now }
    requires room { HaveRoom heights.now }
    ensures { result ≡ top_of heights.now flagged.now number }
{
    let height = heights[number];
    if flagged[number] { height + 1 } else { height }
}

/// The highest top of other components to which a row leads, or the start.
fn highest(
    row: &[usize],
    components: &Components,
    heights: &[usize],
    flagged: &[bool],
    number: usize,
    start: usize,
) -> usize
    requires row { All (λ v. v < length components.now.numbers) row.now }
    requires numbers { All (λ n. n < length heights.now) components.now.numbers }
    requires flagged { length flagged.now ≡ length heights.now }
    requires room { HaveRoom heights.now }
    ensures { IsHighest components.now.numbers row.now heights.now flagged.now number start result }
{
    let mut highest = start;
    for vertex in row {
        let other = components.number(*vertex);
        if other != number {
            highest = highest.max(top(heights, flagged, other));
        }
    }
    highest
}

/// The height of a vertex's component, as far as a table has it, raised to the tops of those to which the vertex
/// leads.
fn raised(
    graph: &Graph,
    components: &Components,
    heights: &[usize],
    flagged: &[bool],
    vertex: usize,
) -> usize
    requires components { AreComponents graph.now components.now }
    requires vertex { vertex < length graph.now }
    requires heights { length heights.now ≡ length graph.now }
    requires flagged { length flagged.now ≡ length graph.now }
    requires room { HaveRoom heights.now }
    ensures highest { let number = slice_index components.now.numbers vertex in
        IsHighest components.now.numbers (successors_of graph.now vertex) heights.now flagged.now number
        (slice_index heights.now number) result }
    ensures within { All (λ b. b < length graph.now) (successors_of graph.now vertex) }
{
    let number = components.number(vertex);
    let row = graph.successors(vertex);
    highest(row, components, heights, flagged, number, heights[number])
}

/// Raises all components, from the last vertex of their order to the first.
fn raise_all(graph: &Graph, components: &Components, flagged: &[bool], heights: &mut [usize])
    requires components { AreComponents graph.now components.now }
    requires flagged { length flagged.now ≡ length graph.now }
    requires heights { heights.old ≡ replicate (length graph.now) 0 }
    ensures { AreRaisedFrom graph.now components.now flagged.now 0 heights.new }
{
    let order = components.order();
    let mut place = order.len();
    while place > 0 {
        place -= 1;
        let vertex = order[place];
        let height = raised(graph, components, heights, flagged, vertex);
        heights[components.number(vertex)] = height;
    }
}

/// By component: whether it has a flagged vertex.
fn flagged_components(
    alloc: Global,
    components: &Components,
    flagged: &[bool],
) -> Result<Vec<bool>, AllocError>
    requires numbers { All (λ n. n < length components.now.numbers) components.now.numbers }
    requires flagged { length flagged.now ≡ length components.now.numbers }
    ensures len { IfOk result (λ table. length table.items ≡ length components.now.numbers) }
    ensures have { IfOk result
        (λ table. HaveFlagged components.now.numbers flagged.now (length flagged.now) table.items) }
{
    let mut table = vec![in alloc; false; components.len()]?;
    flag_components(components, flagged, table.as_mut_slice());
    Ok(table)
}

/// By component: its height, over the vertices that are flagged.
fn component_heights(
    alloc: Global,
    graph: &Graph,
    components: &Components,
    flagged: &[bool],
) -> Result<Vec<usize>, AllocError>
    requires components { AreComponents graph.now components.now }
    requires flagged { length flagged.now ≡ length graph.now }
    ensures len { IfOk result (λ heights. length heights.items ≡ length graph.now) }
    ensures raised { IfOk result (λ heights. AreRaised graph.now components.now flagged.now heights.items) }
{
    let by_component = flagged_components(alloc, components, flagged)?;
    let mut heights = vec![in alloc; 0usize; components.len()]?;
    raise_all(
        graph,
        components,
        by_component.as_slice(),
        heights.as_mut_slice(),
    );
    Ok(heights)
}

/// For each vertex the greatest number of flagged vertices below it of which each is below the one before.
///
/// # Errors
/// Where memory runs out.
pub(crate) fn heights(
    alloc: Global,
    graph: &Graph,
    components: &Components,
    flagged: &[bool],
) -> Result<Vec<usize>, AllocError>
    requires components { AreComponents graph.now components.now }
    requires flagged { length flagged.now ≡ length graph.now }
    ensures len { IfOk result (λ heights. length heights.items ≡ length graph.now) }
    ensures heights { IfOk result (λ heights. AreHeights graph.now flagged.now heights.items) }
{
    let table = component_heights(alloc, graph, components, flagged)?;
    by_vertex(alloc, components, table.as_slice())
}
