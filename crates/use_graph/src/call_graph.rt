//! The graph of calls between the methods of given classes.

ghost use Rattle.std.specs.Prelude.{◌≡◌, ◌<◌, ◌≤◌, ◌+◌, ◌*◌, [], length, Some, IfOk, OnOk, slice_get};
ghost use Rattle.std.specs.List.{Contains};
ghost use Rattle.graph.specs.Rows.{successors_of};
ghost use Rattle.hierarchy.specs.Selectable.{IsNamedLike};
ghost use Rattle.use_graph.specs.Code.{MayRunFor};
ghost use Rattle.use_graph.specs.declared.callee.Callee.TheVariants as callees;
ghost use Rattle.use_graph.specs.steps.CallGraphs.{IsCallGraph};
ghost use Rattle.use_graph.specs.steps.Deeds.{CallsBy};
ghost use Rattle.use_graph.specs.steps.Growing.{IsPart, IsGrowing, GrowsBy, IsCaller, LeadsToAll, LeadsByNumber};
ghost use Rattle.use_graph.specs.steps.Numbers.{HasNumber};
ghost use Rattle.use_graph.specs.steps.Growing.{Extends, EdgeTo, IsLike, LeadsToLike, IsNumberOf, LeadsToEach};

use crate::callee::Callee;
use crate::code::Deed;
use crate::deeds::deeds_of;
use crate::numbers::MethodNumbers;
use graph::{Graph, Visited};
use hierarchy::member::{DeclaredMember, Method};
use hierarchy::selectable::Selectable;
use program::Program;
use std::alloc::{AllocError, Global};

/// Adds an edge.
fn add_edge(graph: &mut Graph, from: usize, to: usize) -> Result<(), AllocError>
    requires from { from < length graph.old }
    requires to { to < length graph.old }
    ensures len { length graph.new ≡ length graph.old }
    ensures extends { OnOk result (Extends graph.old graph.new from (λ t. t ≡ to)) }
    ensures there { OnOk result (Contains (successors_of graph.new from) to) }
{
    graph.add(from, to)?;
    Ok(())
}

/// Adds an edge to a method, if it has a number.
fn add_edge_to(
    numbers: &MethodNumbers,
    graph: &mut Graph,
    from: usize,
    method: DeclaredMember,
) -> Result<(), AllocError>
    requires from { from < length graph.old }
    requires vertices { length numbers.now ≤ length graph.old }
    ensures len { length graph.new ≡ length graph.old }
    ensures extends { OnOk result (Extends graph.old graph.new from (λ t. slice_get numbers.now t ≡ Some method)) }
    ensures there { OnOk result (HasNumber numbers.now method.class method.index
        → EdgeTo numbers.now graph.new from method.class method.index) }
{
    match numbers.number(method.class, method.index) {
        Some(to) => {
            add_edge(graph, from, to)?;
            Ok(())
        }
        None => Ok(()),
    }
}

/// Adds edges to methods, to those that have numbers.
fn add_edges_to(
    numbers: &MethodNumbers,
    graph: &mut Graph,
    from: usize,
    methods: &[DeclaredMember],
) -> Result<(), AllocError>
    requires from { from < length graph.old }
    requires vertices { length numbers.now ≤ length graph.old }
    ensures len { length graph.new ≡ length graph.old }
    ensures extends { OnOk result (Extends graph.old graph.new from (IsNumberOf numbers.now methods.now)) }
    ensures all { OnOk result (LeadsToEach numbers.now graph.new from methods.now) }
{
    for method in methods {
        add_edge_to(numbers, graph, from, *method)?;
    }
    Ok(())
}

/// Adds edges to all methods, neither private nor static, that are declared by the name and descriptor of one.
fn add_like(
    alloc: Global,
    program: &Program,
    numbers: &MethodNumbers,
    graph: &mut Graph,
    from: usize,
    method: DeclaredMember,
) -> Result<(), AllocError>
    requires from { from < length graph.old }
    requires vertices { length numbers.now ≤ length graph.old }
    ensures len { length graph.new ≡ length graph.old }
    ensures extends { OnOk result (Extends graph.old graph.new from (IsLike program.now numbers.now method)) }
    ensures all { OnOk result (LeadsToLike program.now numbers.now graph.new from method) }
{
    let mut like = Vec::new(alloc);
    program.add_named_like(method, &mut like)?;
    add_edges_to(numbers, graph, from, &like)?;
    Ok(())
}

/// Adds the edges of what is selected by the name and descriptor of a method, unless they are there.
fn add_group(
    alloc: Global,
    program: &Program,
    numbers: &MethodNumbers,
    graph: &mut Graph,
    groups: &mut Visited,
    number: usize,
    method: DeclaredMember,
) -> Result<(), AllocError>
    requires growing { IsGrowing program.now numbers.now graph.old groups.old }
    requires number { slice_get numbers.now number ≡ Some method }
    ensures { OnOk result (GrowsBy program.now numbers.now graph.old graph.new groups.new
        (Contains groups.new.items number)) }
{
    let vertex = group_vertex(numbers, number);
    if !groups.add(number)? {
        return Ok(());
    }
    add_like(alloc, program, numbers, graph, vertex, method)?;
    Ok(())
}

/// The vertex of what is selected by the name and descriptor of a method.
fn group_vertex(numbers: &MethodNumbers, number: usize) -> usize
    requires few { length numbers.now ≤ 65535 * 65535 }
    requires number { number < length numbers.now }
    ensures { result ≡ length numbers.now + number }
{
    numbers.len() + number
}

/// Adds edges from a method to all that are declared by the name and descriptor of another.
fn add_named(
    alloc: Global,
    program: &Program,
    numbers: &MethodNumbers,
    graph: &mut Graph,
    groups: &mut Visited,
    from: usize,
    method: DeclaredMember,
) -> Result<(), AllocError>
    requires { IsCaller program.now numbers.now graph.old groups.old from (IsNamedLike program.now.family method) }
    ensures { OnOk result (GrowsBy program.now numbers.now graph.old graph.new groups.new
        (LeadsToAll numbers.now graph.new from (IsNamedLike program.now.family method))) }
{
    match numbers.number(method.class, method.index) {
        Some(number) => {
            add_group(alloc, program, numbers, graph, groups, number, method)?;
            add_edge(graph, from, group_vertex(numbers, number))?;
            Ok(())
        }
        None => {
            add_like(alloc, program, numbers, graph, from, method)?;
            Ok(())
        }
    }
}

/// Adds edges from a method to all that are selected for calls of another.
fn add_selected(
    alloc: Global,
    program: &Program,
    numbers: &MethodNumbers,
    graph: &mut Graph,
    groups: &mut Visited,
    from: usize,
    method: Method,
) -> Result<(), AllocError>
    requires { IsCaller program.now numbers.now graph.old groups.old from
        (MayRunFor program.now (callees.Selected method)) }
    ensures { OnOk result (GrowsBy program.now numbers.now graph.old graph.new groups.new
        (LeadsToAll numbers.now graph.new from (MayRunFor program.now (callees.Selected method)))) }
{
    match program.selectable(method) {
        Selectable::Nothing => Ok(()),
        Selectable::Alone(member) => {
            add_edge_to(numbers, graph, from, member)?;
            Ok(())
        }
        Selectable::Named(member) => {
            add_named(alloc, program, numbers, graph, groups, from, member)?;
            Ok(())
        }
    }
}

/// Adds edges from a method to all that may run for a call of its body.
fn add_call(
    alloc: Global,
    program: &Program,
    numbers: &MethodNumbers,
    graph: &mut Graph,
    groups: &mut Visited,
    from: usize,
    callee: Callee,
) -> Result<(), AllocError>
    requires { IsCaller program.now numbers.now graph.old groups.old from (MayRunFor program.now callee) }
    ensures { OnOk result (GrowsBy program.now numbers.now graph.old graph.new groups.new
        (LeadsToAll numbers.now graph.new from (MayRunFor program.now callee))) }
{
    match callee {
        Callee::Nobody => Ok(()),
        Callee::Exactly { class, index } => {
            add_edge_to(numbers, graph, from, DeclaredMember { class, index })?;
            Ok(())
        }
        Callee::Selected(method) => {
            add_selected(alloc, program, numbers, graph, groups, from, method)?;
            Ok(())
        }
    }
}

/// Adds edges from a method to all that may run for the calls of some of its instructions.
fn add_calls(
    alloc: Global,
    program: &Program,
    numbers: &MethodNumbers,
    graph: &mut Graph,
    groups: &mut Visited,
    from: usize,
    deeds: &[Deed],
) -> Result<(), AllocError>
    requires { IsCaller program.now numbers.now graph.old groups.old from (CallsBy program.now deeds.now) }
    ensures { OnOk result (GrowsBy program.now numbers.now graph.old graph.new groups.new
        (LeadsToAll numbers.now graph.new from (CallsBy program.now deeds.now))) }
{
    for deed in deeds {
        add_call(alloc, program, numbers, graph, groups, from, deed.callee)?;
    }
    Ok(())
}

/// Adds the edges of the method of a number, to all that may run for the calls of its body, if it is one.
fn add_numbered(
    alloc: Global,
    program: &Program,
    numbers: &MethodNumbers,
    graph: &mut Graph,
    groups: &mut Visited,
    number: usize,
) -> Result<(), AllocError>
    requires growing { IsGrowing program.now numbers.now graph.old groups.old }
    ensures { OnOk result (GrowsBy program.now numbers.now graph.old graph.new groups.new
        (LeadsByNumber program.now numbers.now graph.new number)) }
{
    let Some(method) = numbers.method(number) else {
        return Ok(());
    };
    let deeds = deeds_of(alloc, program, method.class, method.index)?;
    add_calls(alloc, program, numbers, graph, groups, number, &deeds)?;
    Ok(())
}

/// Adds the edges of all methods.
fn add_all_numbered(
    alloc: Global,
    program: &Program,
    numbers: &MethodNumbers,
    graph: &mut Graph,
    groups: &mut Visited,
) -> Result<(), AllocError>
    requires growing { IsGrowing program.now numbers.now graph.old groups.old }
    ensures { OnOk result (IsCallGraph program.now numbers.now graph.new) }
{
    for number in 0..numbers.len() {
        add_numbered(alloc, program, numbers, graph, groups, number)?;
    }
    Ok(())
}

/// Adds the edges of all methods, where there are none yet.
fn add_all(
    alloc: Global,
    program: &Program,
    numbers: &MethodNumbers,
    graph: &mut Graph,
) -> Result<(), AllocError>
    requires few { length numbers.now ≤ 65535 * 65535 }
    requires part { IsPart program.now numbers.now graph.old [] }
    ensures { OnOk result (IsCallGraph program.now numbers.now graph.new) }
{
    let mut groups = Visited::new(alloc, numbers.len())?;
    add_all_numbered(alloc, program, numbers, graph, &mut groups)?;
    Ok(())
}

/// The graph of calls between the methods of given classes.
pub(crate) fn call_graph(
    alloc: Global,
    program: &Program,
    numbers: &MethodNumbers,
) -> Result<Graph, AllocError>
    requires few { length numbers.now ≤ 65535 * 65535 }
    ensures { IfOk result (IsCallGraph program.now numbers.now) }
{
    let mut graph = Graph::new(alloc, 2 * numbers.len())?;
    match add_all(alloc, program, numbers, &mut graph) {
        Ok(()) => Ok(graph),
        Err(error) => Err(error),
    }
}
