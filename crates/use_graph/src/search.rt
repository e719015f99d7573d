//! What the initialization of one class may run and use.

ghost use Rattle.std.specs.Prelude.{◌≡◌, ◌≢◌, ◌↔◌, ◌⊎◌, ◌<◌, ℕ, [], length, IfOk, OnOk, MatchOption};
ghost use Rattle.std.specs.List.{Contains};
ghost use Rattle.std.specs.List.Sorted.{IsStrictlyIncreasing};
ghost use Rattle.program.specs.Tables.{order_in};
ghost use Rattle.hierarchy.specs.declared.member.DeclaredMember.{DeclaredMember as Declared};
ghost use Rattle.use_graph.specs.declared.body.Told.{Told as Held};
ghost use Rattle.use_graph.specs.declared.mark.Mark.TheVariants as marks;
ghost use Rattle.use_graph.specs.Uses.{MayRun, IsUse, Means, Tells, StandOnce, AreUses};
ghost use Rattle.use_graph.specs.steps.Bodies.{IsUseGraph};
ghost use Rattle.use_graph.specs.steps.Deeds.{HoldsOfOne};
ghost use Rattle.use_graph.specs.steps.Numbers.{AreMethods};
ghost use Rattle.use_graph.specs.steps.Searching.{StartsAt, AreReached, IsMethodAt, IsAmong, IsClassBelow, IsNeededAt};
ghost use Rattle.use_graph.specs.steps.Searching.{AddsMethod, IsNeededIn, AddsOther, Unmarked, IsMarkedAt, IsFound};

use crate::body::Told;
use crate::class_uses::{Marks, Uses};
use crate::mark::{Evidence, Mark, means};
use crate::whole_program::UseGraph;
use graph::{Visited, reach};
use hierarchy::member::DeclaredMember;
use program::Program;
use std::alloc::{AllocError, Global};

/// The vertex of the class initialization method of a class, if it has one.
pub fn start_of(program: &Program, graph: &UseGraph, class: u32) -> Option<usize>
    requires { AreMethods program.now graph.now.methods }
    ensures { StartsAt program.now graph.now.methods class result }
{
    let initializer = program.initializer(class)?;
    graph.methods.number(class, initializer)
}

/// The vertices that the class initialization method of a class reaches.
fn reached_by(
    alloc: Global,
    program: &Program,
    graph: &UseGraph,
    class: u32,
) -> Result<Visited, AllocError>
    requires { IsUseGraph program.now graph.now }
    ensures { IfOk result (λ reached. AreReached program.now graph.now.methods class reached.items) }
{
    match start_of(program, graph, class) {
        Some(start) => {
            let reached = reach(alloc, &graph.calls, start)?;
            Ok(reached)
        }
        None => {
            let nothing = Visited::new(alloc, 0)?;
            Ok(nothing)
        }
    }
}

/// Adds the method of a vertex, if it is one.
fn add_method(
    graph: &UseGraph,
    vertex: usize,
    methods: &mut Vec<DeclaredMember>,
) -> Result<(), AllocError>
    ensures all { OnOk result ((m : Declared) → Contains methods.new.items m
        ↔ (Contains methods.old.items m ⊎ IsMethodAt graph.now.methods vertex m)) }
    ensures adds { OnOk result (AddsMethod graph.now.methods vertex methods.old.items methods.new.items) }
    ensures numbered { StandOnce graph.now.methods }
{
    match graph.methods.method(vertex) {
        Some(method) => {
            methods.push(method)?;
            Ok(())
        }
        None => Ok(()),
    }
}

/// Adds the methods among some vertices, where there are none yet.
fn add_methods(
    graph: &UseGraph,
    reached: &Visited,
    methods: &mut Vec<DeclaredMember>,
) -> Result<(), AllocError>
    requires { methods.old.items ≡ [] }
    ensures all { OnOk result ((m : Declared) → Contains methods.new.items m
        ↔ (Contains methods.old.items m ⊎ IsAmong graph.now.methods reached.now.items m)) }
    ensures once { OnOk result (StandOnce methods.new.items) }
{
    for place in 0..reached.len() {
        add_method(graph, reached.at(place), methods)?;
    }
    Ok(())
}

/// Adds a class to those that are used, if it is below a limit.
fn add_class(used: &mut Visited, class: u32, limit: u32) -> Result<(), AllocError>
    requires { used.old.limit ≡ limit }
    ensures limit { used.new.limit ≡ limit }
    ensures used { OnOk result ((e : ℕ) → Contains used.new.items e
        ↔ (Contains used.old.items e ⊎ IsClassBelow limit class e)) }
{
    if class < limit {
        used.add(class as usize)?;
    }
    Ok(())
}

/// Adds those of some classes that are below a limit.
fn add_used(used: &mut Visited, classes: &[u32], limit: u32) -> Result<(), AllocError>
    requires { used.old.limit ≡ limit }
    ensures limit { used.new.limit ≡ limit }
    ensures used { OnOk result ((e : ℕ) → Contains used.new.items e
        ↔ (Contains used.old.items e ⊎ HoldsOfOne (IsClassBelow limit) classes.now e)) }
{
    for class in classes {
        add_class(used, *class, limit)?;
    }
    Ok(())
}

/// Adds the classes below a limit that the method of a vertex needs.
fn add_needed_at(
    graph: &UseGraph,
    vertex: usize,
    used: &mut Visited,
    limit: u32,
) -> Result<(), AllocError>
    requires { used.old.limit ≡ limit }
    ensures limit { used.new.limit ≡ limit }
    ensures used { OnOk result ((e : ℕ) → Contains used.new.items e
        ↔ (Contains used.old.items e ⊎ IsNeededAt graph.now.bodies.items limit vertex e)) }
{
    match graph.body(vertex) {
        Some(body) => {
            add_used(used, &body.needs, limit)?;
            Ok(())
        }
        None => Ok(()),
    }
}

/// Adds the classes below a limit that methods among some vertices need.
fn add_needed(
    graph: &UseGraph,
    reached: &Visited,
    used: &mut Visited,
    limit: u32,
) -> Result<(), AllocError>
    requires { used.old.limit ≡ limit }
    ensures limit { used.new.limit ≡ limit }
    ensures used { OnOk result ((e : ℕ) → Contains used.new.items e
        ↔ (Contains used.old.items e ⊎ IsNeededIn graph.now.bodies.items limit reached.now.items e)) }
{
    for place in 0..reached.len() {
        add_needed_at(graph, reached.at(place), used, limit)?;
    }
    Ok(())
}

/// Adds a member of a set, but for one.
fn add_other(
    used: &Visited,
    class: u32,
    other: u32,
    classes: &mut Vec<u32>,
) -> Result<(), AllocError>
    ensures { OnOk result (AddsOther used.now.items class other classes.old.items classes.new.items) }
{
    if other == class {
        return Ok(());
    }
    if !used.has(other as usize) {
        return Ok(());
    }
    classes.push(other)?;
    Ok(())
}

/// Adds the members of a set below a limit, the least first, but one.
fn add_others(
    used: &Visited,
    class: u32,
    limit: u32,
    classes: &mut Vec<u32>,
) -> Result<(), AllocError>
    requires { classes.old.items ≡ [] }
    ensures members { OnOk result ((e : ℕ) → Contains classes.new.items e
        ↔ ((e < limit) × (e ≢ class) × Contains used.now.items e)) }
    ensures ascending { OnOk result (IsStrictlyIncreasing classes.new.items) }
{
    for other in 0..limit {
        add_other(used, class, other, classes)?;
    }
    Ok(())
}

/// The members of a set below a limit, the least first, but one.
fn others(alloc: Global, used: &Visited, class: u32, limit: u32) -> Result<Vec<u32>, AllocError>
    ensures members { IfOk result (λ classes. (e : ℕ) → Contains classes.items e
        ↔ ((e < limit) × (e ≢ class) × Contains used.now.items e)) }
    ensures ascending { IfOk result (λ classes. IsStrictlyIncreasing classes.items) }
{
    let mut classes = Vec::new(alloc);
    match add_others(used, class, limit, &mut classes) {
        Ok(()) => Ok(classes),
        Err(error) => Err(error),
    }
}

/// Adds the classes below a limit that are initialized before a class, it among them, or that methods need among some
/// vertices, where there are none yet.
fn add_all_used(
    program: &Program,
    graph: &UseGraph,
    reached: &Visited,
    class: u32,
    used: &mut Visited,
    limit: u32,
) -> Result<(), AllocError>
    requires none { used.old.items ≡ [] }
    requires limit { used.old.limit ≡ limit }
    ensures { OnOk result ((e : ℕ) → Contains used.new.items e
        ↔ (HoldsOfOne (IsClassBelow limit) (order_in program.now class) e
        ⊎ IsNeededIn graph.now.bodies.items limit reached.now.items e)) }
{
    add_used(used, program.init_order(class), limit)?;
    add_needed(graph, reached, used, limit)?;
    Ok(())
}

/// The classes that the initialization of a class may use, where these vertices are reached.
fn used_by(
    alloc: Global,
    program: &Program,
    graph: &UseGraph,
    reached: &Visited,
    class: u32,
) -> Result<Vec<u32>, AllocError>
    requires graph { IsUseGraph program.now graph.now }
    requires reached { AreReached program.now graph.now.methods class reached.now.items }
    ensures members { IfOk result (λ classes. (e : ℕ) → Contains classes.items e ↔ IsUse program.now class e) }
    ensures ascending { IfOk result (λ classes. IsStrictlyIncreasing classes.items) }
{
    let limit = program.given_count();
    let mut used = Visited::new(alloc, limit as usize)?;
    match add_all_used(program, graph, reached, class, &mut used, limit) {
        Ok(()) => others(alloc, &used, class, limit),
        Err(error) => Err(error),
    }
}

/// Where the first instruction of a method begins that bears a mark.
fn first_pc(told: &[Told], class: u32, mark: Mark) -> Option<u16>
    ensures { MatchOption result ((t : Held) → Contains told.now t → ¬ Means class t.feature mark)
        (λ pc. (t : Held) × Contains told.now t × (t.pc ≡ pc) × Means class t.feature mark) }
{
    for item in told {
        if means(class, item.feature, mark) {
            return Some(item.pc);
        }
    }
    None
}

/// Evidence for a mark in the method of a vertex, if it is one.
fn evidence_at(graph: &UseGraph, vertex: usize, class: u32, mark: Mark) -> Option<Evidence>
    ensures { MatchOption result (Unmarked graph.now class mark vertex) (IsMarkedAt graph.now class mark vertex) }
{
    let method = graph.methods.method(vertex)?;
    let body = graph.body(vertex)?;
    let pc = first_pc(&body.told, class, mark)?;
    Some(Evidence {
        class: method.class,
        index: method.index,
        pc,
    })
}

/// Evidence for a mark in the methods among some vertices, if there is any.
fn evidence(graph: &UseGraph, reached: &Visited, class: u32, mark: Mark) -> Option<Evidence>
    ensures { IsFound graph.now reached.now.items class mark result }
{
    for place in 0..reached.len() {
        if let Some(found) = evidence_at(graph, reached.at(place), class, mark) {
            return Some(found);
        }
    }
    None
}

/// Evidence for each mark in the methods among some vertices.
fn marks_of(graph: &UseGraph, reached: &Visited, class: u32) -> Marks
    ensures prints { IsFound graph.now reached.now.items class marks.Prints result.prints }
    ensures throws { IsFound graph.now reached.now.items class marks.Throws result.throws }
    ensures monitors { IsFound graph.now reached.now.items class marks.Monitors result.monitors }
    ensures foreign_write { IsFound graph.now reached.now.items class marks.ForeignWrite result.foreign_write }
    ensures foreign_read { IsFound graph.now reached.now.items class marks.ForeignRead result.foreign_read }
    ensures unsupported { IsFound graph.now reached.now.items class marks.Unsupported result.unsupported }
    ensures missing { IsFound graph.now reached.now.items class marks.Missing result.missing }
{
    Marks {
        prints: evidence(graph, reached, class, Mark::Prints),
        throws: evidence(graph, reached, class, Mark::Throws),
        monitors: evidence(graph, reached, class, Mark::Monitors),
        foreign_write: evidence(graph, reached, class, Mark::ForeignWrite),
        foreign_read: evidence(graph, reached, class, Mark::ForeignRead),
        unsupported: evidence(graph, reached, class, Mark::Unsupported),
        missing: evidence(graph, reached, class, Mark::Missing),
    }
}

/// What the initialization of a class may run and use, where these vertices are reached.
fn uses_by(
    alloc: Global,
    program: &Program,
    graph: &UseGraph,
    reached: &Visited,
    class: u32,
) -> Result<Uses, AllocError>
    requires graph { IsUseGraph program.now graph.now }
    requires reached { AreReached program.now graph.now.methods class reached.now.items }
    ensures { IfOk result (AreUses program.now class) }
{
    let mut methods = Vec::new(alloc);
    add_methods(graph, reached, &mut methods)?;
    let classes = used_by(alloc, program, graph, reached, class)?;
    let marks = marks_of(graph, reached, class);
    Ok(Uses {
        methods,
        classes,
        marks,
    })
}

impl UseGraph {
    /// What the initialization of a class of the program may run and use, and what its code is marked for.
    ///
    /// # Errors
    /// Where memory runs out.
    pub fn uses(&self, alloc: Global, program: &Program, class: u32) -> Result<Uses, AllocError>
        requires { IsUseGraph program.now self.now }
        ensures { IfOk result (AreUses program.now class) }
    {
        let reached = reached_by(alloc, program, self, class)?;
        uses_by(alloc, program, self, &reached, class)
    }
}

/// What the initialization of a class may run and use, and what its code is marked for. It looks at the whole program.
///
/// # Errors
/// Where memory runs out.
pub fn uses(alloc: Global, program: &Program, class: u32) -> Result<Uses, AllocError>
    ensures { IfOk result (AreUses program.now class) }
{
    let graph = UseGraph::of_program(alloc, program)?;
    graph.uses(alloc, program, class)
}
