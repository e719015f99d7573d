//! Classes that use one another.

ghost use Rattle.std.specs.Prelude.{◌≡◌, ◌+◌, ◌*◌, ◌<◌, ◌≤◌, length, replicate, None, IfOk};
ghost use Rattle.std.specs.List.{All};
ghost use Rattle.graph.specs.Components.{AreComponents};
ghost use Rattle.use_graph.specs.steps.Bodies.{IsUseGraph};
ghost use Rattle.initializer_analysis.specs.steps.Dependence.{HaveVertices, IsDependence, vertex_of};
ghost use Rattle.explain.specs.Explanations.{AreCycles};
ghost use Rattle.explain.specs.steps.Pairs.{AreOthers, HavePairs, IsOther};

use graph::{Components, Graph, components_of};
use initializer_analysis::{class_vertex, dependence_graph};
use program::Program;
use std::alloc::{AllocError, Global};
use use_graph::UseGraph;

/// Adds a class to the first two of its component, if it is one of these.
fn add_member(
    uses: &UseGraph,
    components: &Components,
    class: u32,
    firsts: &mut [Option<u32>],
    seconds: &mut [Option<u32>],
)
    requires few { length uses.now.calls ≤ 2 * (65535 * 65535) }
    requires vertex { vertex_of uses.now class < length components.now.numbers }
    requires below { All (λ n. n < length components.now.numbers) components.now.numbers }
    requires have { HavePairs uses.now components.now.numbers class firsts.old seconds.old }
    ensures { HavePairs uses.now components.now.numbers (class + 1) firsts.new seconds.new }
{
    let number = components.number(class_vertex(uses, class));
    if firsts[number].is_none() {
        firsts[number] = Some(class);
    } else if seconds[number].is_none() {
        seconds[number] = Some(class);
    }
}

/// By component: the first two classes that it has, of those below a limit.
fn add_members(
    uses: &UseGraph,
    components: &Components,
    limit: u32,
    firsts: &mut [Option<u32>],
    seconds: &mut [Option<u32>],
)
    requires vertices { HaveVertices uses.now limit (length components.now.numbers) }
    requires below { All (λ n. n < length components.now.numbers) components.now.numbers }
    requires none { firsts.old ≡ replicate (length components.now.numbers) None }
    requires also { seconds.old ≡ replicate (length components.now.numbers) None }
    ensures { HavePairs uses.now components.now.numbers limit firsts.new seconds.new }
{
    for class in 0..limit {
        add_member(uses, components, class, firsts, seconds);
    }
}

/// Another class of the component of a class.
fn other_of(
    uses: &UseGraph,
    components: &Components,
    limit: u32,
    firsts: &[Option<u32>],
    seconds: &[Option<u32>],
    class: u32,
) -> Option<u32>
    requires vertices { HaveVertices uses.now limit (length components.now.numbers) }
    requires below { All (λ n. n < length components.now.numbers) components.now.numbers }
    requires have { HavePairs uses.now components.now.numbers limit firsts.now seconds.now }
    requires class { class < limit }
    ensures { IsOther uses.now components.now.numbers limit class result }
{
    let number = components.number(class_vertex(uses, class));
    match firsts[number] {
        Some(first) => {
            if first == class {
                seconds[number]
            } else {
                Some(first)
            }
        }
        None => None,
    }
}

/// For each class another one of its component, by the first two of each.
fn others_by(
    alloc: Global,
    uses: &UseGraph,
    components: &Components,
    limit: u32,
    firsts: &[Option<u32>],
    seconds: &[Option<u32>],
) -> Result<Vec<Option<u32>>, AllocError>
    requires vertices { HaveVertices uses.now limit (length components.now.numbers) }
    requires below { All (λ n. n < length components.now.numbers) components.now.numbers }
    requires have { HavePairs uses.now components.now.numbers limit firsts.now seconds.now }
    ensures { IfOk result (λ others. AreOthers uses.now components.now.numbers limit others.items) }
{
    let mut others = Vec::new(alloc);
    for class in 0..limit {
        others.push(other_of(uses, components, limit, firsts, seconds, class))?;
    }
    Ok(others)
}

/// For each class another one of its component.
fn others_of(
    alloc: Global,
    uses: &UseGraph,
    components: &Components,
    limit: u32,
) -> Result<Vec<Option<u32>>, AllocError>
    requires vertices { HaveVertices uses.now limit (length components.now.numbers) }
    requires below { All (λ n. n < length components.now.numbers) components.now.numbers }
    ensures { IfOk result (λ others. AreOthers uses.now components.now.numbers limit others.items) }
{
    let mut firsts: Vec<Option<u32>> = vec![in alloc; None; components.len()]?;
    let mut seconds: Vec<Option<u32>> = vec![in alloc; None; components.len()]?;
    add_members(uses, components, limit, &mut firsts, &mut seconds);
    others_by(alloc, uses, components, limit, &firsts, &seconds)
}

/// For each class another one that it uses, by one use or several, and that uses it so, by what classes and methods
/// depend on.
fn cycles_by(
    alloc: Global,
    program: &Program,
    uses: &UseGraph,
    graph: &Graph,
) -> Result<Vec<Option<u32>>, AllocError>
    requires uses { IsUseGraph program.now uses.now }
    requires graph { IsDependence program.now uses.now graph.now }
    ensures { IfOk result (λ others. AreCycles program.now others.items) }
{
    let components = components_of(alloc, graph)?;
    let others = others_of(alloc, uses, &components, program.given_count())?;
    Ok(others)
}

/// For each class another one that it uses, by one use or several, and that uses it so, if there is one: both stand in
/// one component of what classes and methods depend on.
///
/// # Errors
/// Where memory runs out.
pub(crate) fn cycles_of(
    alloc: Global,
    program: &Program,
    uses: &UseGraph,
) -> Result<Vec<Option<u32>>, AllocError>
    requires { IsUseGraph program.now uses.now }
    ensures { IfOk result (λ others. AreCycles program.now others.items) }
{
    let graph = dependence_graph(alloc, program, uses)?;
    cycles_by(alloc, program, uses, &graph)
}
