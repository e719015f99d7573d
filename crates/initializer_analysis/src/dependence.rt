//! What classes and methods depend on, as a graph.

ghost use Rattle.std.specs.Prelude.{◌≡◌, ℕ, ◌<◌, ◌≤◌, ◌+◌, ◌*◌, Option as Maybe, Some, [], length, replicate};
ghost use Rattle.std.specs.Prelude.{IfOk, OnOk};
ghost use Rattle.std.specs.List.{All, Contains};
ghost use Rattle.use_graph.specs.steps.Bodies.{IsUseGraph};
ghost use Rattle.use_graph.specs.steps.Deeds.{HoldsOfOne};
ghost use Rattle.use_graph.specs.steps.Searching.{StartsAt};
ghost use Rattle.initializer_analysis.specs.steps.Dependence.{vertex_of, HaveVertices, IsVertexOf, IsNeededVertex};
ghost use Rattle.initializer_analysis.specs.steps.Dependence.{DependsAt, IsDependence, AddsFrom, AddsClass};
ghost use Rattle.initializer_analysis.specs.steps.Dependence.{IsDependenceBelow};

use graph::Graph;
use program::Program;
use std::alloc::{AllocError, Global};
use use_graph::{UseGraph, start_of};

/// The vertex of a class, behind those of the graph of calls.
pub fn class_vertex(uses: &UseGraph, class: u32) -> usize
    requires { length uses.now.calls ≤ 2 * (65535 * 65535) }
    ensures { result ≡ vertex_of uses.now class }
{
    uses.calls.len() + class as usize
}

/// Adds an edge.
fn add_edge(graph: &mut Graph, from: usize, to: usize) -> Result<(), AllocError>
    requires from { from < length graph.old }
    requires to { to < length graph.old }
    ensures { OnOk result (AddsFrom graph.old graph.new from (λ b. to ≡ b)) }
{
    graph.add(from, to)?;
    Ok(())
}

/// Adds edges to some vertices.
fn add_row(graph: &mut Graph, from: usize, row: &[usize]) -> Result<(), AllocError>
    requires from { from < length graph.old }
    requires row { All (λ b. b < length graph.old) row.now }
    ensures { OnOk result (AddsFrom graph.old graph.new from (Contains row.now)) }
{
    for to in row {
        add_edge(graph, from, *to)?;
    }
    Ok(())
}

/// Adds an edge to a class, if it is a given one.
fn add_class(
    program: &Program,
    uses: &UseGraph,
    graph: &mut Graph,
    from: usize,
    class: u32,
) -> Result<(), AllocError>
    requires vertices { HaveVertices uses.now (length program.now.classes) (length graph.old) }
    requires from { from < length graph.old }
    ensures { OnOk result (AddsFrom graph.old graph.new from (IsVertexOf program.now uses.now class)) }
{
    if class < program.given_count() {
        add_edge(graph, from, class_vertex(uses, class))?;
    }
    Ok(())
}

/// Adds edges to those of some classes that are given ones.
fn add_classes(
    program: &Program,
    uses: &UseGraph,
    graph: &mut Graph,
    from: usize,
    classes: &[u32],
) -> Result<(), AllocError>
    requires vertices { HaveVertices uses.now (length program.now.classes) (length graph.old) }
    requires from { from < length graph.old }
    ensures { OnOk result (AddsFrom graph.old graph.new from
        (HoldsOfOne (IsVertexOf program.now uses.now) classes.now)) }
{
    for class in classes {
        add_class(program, uses, graph, from, *class)?;
    }
    Ok(())
}

/// Adds edges from a vertex to the given classes that its method needs, if it has one.
fn add_needed(
    program: &Program,
    uses: &UseGraph,
    graph: &mut Graph,
    vertex: usize,
) -> Result<(), AllocError>
    requires vertices { HaveVertices uses.now (length program.now.classes) (length graph.old) }
    requires vertex { vertex < length graph.old }
    ensures { OnOk result (AddsFrom graph.old graph.new vertex (IsNeededVertex program.now uses.now vertex)) }
{
    match uses.body(vertex) {
        Some(body) => {
            add_classes(program, uses, graph, vertex, &body.needs)?;
            Ok(())
        }
        None => Ok(()),
    }
}

/// Adds the edges of a vertex of the graph of calls.
fn add_vertex(
    program: &Program,
    uses: &UseGraph,
    graph: &mut Graph,
    vertex: usize,
) -> Result<(), AllocError>
    requires vertices { HaveVertices uses.now (length program.now.classes) (length graph.old) }
    requires vertex { vertex < length uses.now.calls }
    ensures { OnOk result (AddsFrom graph.old graph.new vertex (DependsAt program.now uses.now vertex)) }
{
    add_row(graph, vertex, uses.calls.successors(vertex))?;
    add_needed(program, uses, graph, vertex)?;
    Ok(())
}

/// Adds the edges of all vertices of the graph of calls.
fn add_vertices(program: &Program, uses: &UseGraph, graph: &mut Graph) -> Result<(), AllocError>
    requires few { length uses.now.calls ≤ 2 * (65535 * 65535) }
    requires below { IsDependenceBelow program.now uses.now 0 graph.old }
    ensures { OnOk result (IsDependenceBelow program.now uses.now (length uses.now.calls) graph.new) }
{
    for vertex in 0..uses.calls.len() {
        add_vertex(program, uses, graph, vertex)?;
    }
    Ok(())
}

/// Adds an edge from a class to its class initialization method, if it has one.
fn add_start(
    program: &Program,
    uses: &UseGraph,
    graph: &mut Graph,
    class: u32,
) -> Result<(), AllocError>
    requires uses { IsUseGraph program.now uses.now }
    requires vertices { length graph.old ≡ length uses.now.calls + length program.now.classes }
    requires class { class < length program.now.classes }
    ensures { OnOk result ((start : Maybe ℕ) × StartsAt program.now uses.now.methods class start
        × AddsFrom graph.old graph.new (vertex_of uses.now class) (λ b. start ≡ Some b)) }
{
    match start_of(program, uses, class) {
        Some(start) => {
            add_edge(graph, class_vertex(uses, class), start)?;
            Ok(())
        }
        None => Ok(()),
    }
}

/// Adds the edges of a class.
fn add_uses(
    program: &Program,
    uses: &UseGraph,
    graph: &mut Graph,
    class: u32,
) -> Result<(), AllocError>
    requires uses { IsUseGraph program.now uses.now }
    requires vertices { length graph.old ≡ length uses.now.calls + length program.now.classes }
    requires class { class < length program.now.classes }
    ensures { OnOk result (AddsClass program.now uses.now class graph.old graph.new) }
{
    let vertex = class_vertex(uses, class);
    add_start(program, uses, graph, class)?;
    add_classes(program, uses, graph, vertex, program.init_order(class))?;
    Ok(())
}

/// Adds the edges of all classes.
fn add_all_uses(program: &Program, uses: &UseGraph, graph: &mut Graph) -> Result<(), AllocError>
    requires uses { IsUseGraph program.now uses.now }
    requires below { IsDependenceBelow program.now uses.now (length uses.now.calls) graph.old }
    ensures { OnOk result (IsDependence program.now uses.now graph.new) }
{
    for class in 0..program.given_count() {
        add_uses(program, uses, graph, class)?;
    }
    Ok(())
}

/// Adds all edges.
fn add_all(program: &Program, uses: &UseGraph, graph: &mut Graph) -> Result<(), AllocError>
    requires uses { IsUseGraph program.now uses.now }
    requires none { graph.old ≡ replicate (length uses.now.calls + length program.now.classes) [] }
    ensures { OnOk result (IsDependence program.now uses.now graph.new) }
{
    add_vertices(program, uses, graph)?;
    add_all_uses(program, uses, graph)
}

/// What the classes and methods of a program depend on.
///
/// # Errors
/// Where memory runs out.
pub fn dependence_graph(
    alloc: Global,
    program: &Program,
    uses: &UseGraph,
) -> Result<Graph, AllocError>
    requires { IsUseGraph program.now uses.now }
    ensures { IfOk result (IsDependence program.now uses.now) }
{
    let mut graph = Graph::new(alloc, class_vertex(uses, program.given_count()))?;
    match add_all(program, uses, &mut graph) {
        Ok(()) => Ok(graph),
        Err(error) => Err(error),
    }
}
