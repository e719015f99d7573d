//! Which classes use themselves by way of others, by the components of what classes and methods depend on.

ghost use Rattle.std.specs.Prelude.{◌≡◌, ◌↔◌, ◌≤◌, ◌*◌, ◌<◌, length, replicate, slice_index, IsTrue, IfOk};
ghost use Rattle.std.specs.List.{All};
ghost use Rattle.initializer_analysis.specs.steps.LeastReached.{no_labels};
ghost use Rattle.initializer_analysis.specs.steps.OwnReasons.{AreOnCycles};
ghost use Rattle.initializer_analysis.specs.steps.Cycles.{AddsMember, HaveMembers, HasOther, AreOthers};
ghost use Rattle.initializer_analysis.specs.steps.Dependence.{vertex_of, HaveVertices, AreDependences};

use crate::dependence::class_vertex;
use crate::labels::Least;
use graph::{Components, Graph};
use program::Program;
use std::alloc::{AllocError, Global};
use use_graph::UseGraph;

/// Adds a class to those of its component.
fn add_member(uses: &UseGraph, components: &Components, class: u32, table: &mut [Least])
    requires few { length uses.now.calls ≤ 2 * (65535 * 65535) }
    requires vertex { vertex_of uses.now class < length components.now.numbers }
    requires numbers { All (λ n. n < length table.old) components.now.numbers }
    ensures { AddsMember (slice_index components.now.numbers (vertex_of uses.now class)) class table.old table.new }
{
    let number = components.number(class_vertex(uses, class));
    let more = table[number].add(class);
    table[number] = more;
}

/// By component: the two least classes that it has, of those below a limit.
fn add_members(uses: &UseGraph, components: &Components, limit: u32, table: &mut [Least])
    requires vertices { HaveVertices uses.now limit (length components.now.numbers) }
    requires numbers { All (λ n. n < length table.old) components.now.numbers }
    requires none { table.old ≡ replicate (length components.now.numbers) no_labels }
    ensures { HaveMembers uses.now components.now.numbers limit table.new }
{
    for class in 0..limit {
        add_member(uses, components, class, table);
    }
}

/// Whether a component has another class than this one, which it has.
fn has_other(
    uses: &UseGraph,
    components: &Components,
    table: &[Least],
    limit: u32,
    class: u32,
) -> bool
    requires vertices { HaveVertices uses.now limit (length components.now.numbers) }
    requires numbers { All (λ n. n < length table.now) components.now.numbers }
    requires table { HaveMembers uses.now components.now.numbers limit table.now }
    requires class { class < limit }
    ensures { IsTrue result ↔ HasOther uses.now components.now.numbers limit class }
{
    let number = components.number(class_vertex(uses, class));
    table[number].first_but(class).is_some()
}

/// No classes, for `count` components.
fn no_members(alloc: Global, count: usize) -> Result<Vec<Least>, AllocError>
    ensures { IfOk result (λ table. table.items ≡ replicate count no_labels) }
{
    vec![in alloc; Least::none(); count]
}

/// A table of no classes, with the classes below a limit added to their components.
fn with_members(
    uses: &UseGraph,
    components: &Components,
    limit: u32,
    table: Vec<Least>,
) -> Vec<Least>
    requires vertices { HaveVertices uses.now limit (length components.now.numbers) }
    requires numbers { All (λ n. n < length table.items) components.now.numbers }
    requires none { table.items ≡ replicate (length components.now.numbers) no_labels }
    ensures len { length result.items ≡ length table.items }
    ensures members { HaveMembers uses.now components.now.numbers limit result.items }
{
    let mut table = table;
    add_members(uses, components, limit, &mut table);
    table
}

/// By component: the two least classes that it has.
fn members(
    alloc: Global,
    uses: &UseGraph,
    components: &Components,
    limit: u32,
) -> Result<Vec<Least>, AllocError>
    requires vertices { HaveVertices uses.now limit (length components.now.numbers) }
    requires numbers { All (λ n. n < length components.now.numbers) components.now.numbers }
    ensures len { IfOk result (λ table. length table.items ≡ length components.now.numbers) }
    ensures members { IfOk result (λ table. HaveMembers uses.now components.now.numbers limit table.items) }
{
    match no_members(alloc, components.len()) {
        Ok(table) => Ok(with_members(uses, components, limit, table)),
        Err(error) => Err(error),
    }
}

/// For each class whether its component has another one, by those of each component.
fn cycles_by(
    alloc: Global,
    uses: &UseGraph,
    components: &Components,
    table: &[Least],
    limit: u32,
) -> Result<Vec<bool>, AllocError>
    requires vertices { HaveVertices uses.now limit (length components.now.numbers) }
    requires numbers { All (λ n. n < length table.now) components.now.numbers }
    requires table { HaveMembers uses.now components.now.numbers limit table.now }
    ensures { IfOk result (λ on. AreOthers uses.now components.now.numbers limit on.items) }
{
    let mut on_cycle = Vec::with_capacity(alloc, limit as usize)?;
    for class in 0..limit {
        on_cycle.push(has_other(uses, components, table, limit, class))?;
    }
    Ok(on_cycle)
}

/// For each given class whether it uses itself by way of others.
pub(crate) fn cycles(
    alloc: Global,
    program: &Program,
    uses: &UseGraph,
    graph: &Graph,
    components: &Components,
) -> Result<Vec<bool>, AllocError>
    requires dependences { AreDependences program.now uses.now graph.now components.now }
    ensures { IfOk result (λ on. AreOnCycles program.now on.items) }
{
    let limit = program.given_count();
    let table = members(alloc, uses, components, limit)?;
    let on_cycle = cycles_by(alloc, uses, components, table.as_slice(), limit)?;
    Ok(on_cycle)
}
