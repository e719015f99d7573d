//! Calls by which an initializer comes to a method.

ghost use Rattle.std.specs.Prelude.{◌≡◌, slice_get, IfOk, MatchOption};
ghost use Rattle.hierarchy.specs.declared.member.DeclaredMember.{DeclaredMember as Declared};
ghost use Rattle.program.specs.Tables.{Tables};
ghost use Rattle.use_graph.specs.steps.Bodies.{IsUseGraph};
ghost use Rattle.explain.specs.Paths.{Lead};
ghost use Rattle.explain.specs.steps.Trees.{IsTree};
ghost use Rattle.explain.specs.steps.Callers.{AddsCall, HasRoot, IsCaller, IsWay, NoneStandsAt, StandsAt};

use crate::calls::call_site;
use crate::search::Search;
use hierarchy::member::DeclaredMember;
use program::Program;
use std::alloc::{AllocError, Global};
use use_graph::UseGraph;
use use_graph::mark::Evidence;

/// A method and its place in a search.
#[derive(Clone, Copy)]
pub(crate) struct PathStep {
    pub(crate) place: usize,
    pub(crate) method: DeclaredMember,
}

/// The method of a place of a search, if it is one.
pub(crate) fn step_at(uses: &UseGraph, search: &Search, place: usize) -> Option<PathStep>
    ensures { MatchOption result (NoneStandsAt uses.now.methods search.now.seen.items place)
        (λ step. (step.place ≡ place) × StandsAt uses.now.methods search.now.seen.items place step.method) }
{
    let vertex = search.seen.items().get(place)?;
    let method = uses.methods.method(*vertex)?;
    Some(PathStep { place, method })
}

/// The place from where the vertex of a place was found.
fn finder_of(search: &Search, place: usize) -> Option<usize>
    ensures { result ≡ slice_get search.now.finders.items place }
{
    search.finders.get(place).copied()
}

/// The nearest method on the way back from a place of a search: that of its finder, or where this is all that is
/// selected by a name and a descriptor, that of its finder.
fn caller_of(uses: &UseGraph, search: &Search, place: usize) -> Option<PathStep>
    ensures { (P : Tables) (callee : Declared) → IsWay P uses.now search.now place callee
        → MatchOption result ⊥ (IsCaller P uses.now search.now place callee) }
{
    let Some(finder) = finder_of(search, place) else {
        return None;
    };
    if let Some(step) = step_at(uses, search, finder) {
        return Some(step);
    }
    let Some(before) = finder_of(search, finder) else {
        return None;
    };
    step_at(uses, search, before)
}

/// Adds the call by which a method is reached, and answers in which one it stands.
fn add_call(
    program: &Program,
    uses: &UseGraph,
    search: &Search,
    callee: PathStep,
    path: &mut Vec<Evidence>,
) -> Result<PathStep, AllocError>
    requires { IsWay program.now uses.now search.now callee.place callee.method }
    ensures caller { IfOk result (IsCaller program.now uses.now search.now callee.place callee.method) }
    ensures call { IfOk result
        (λ caller. AddsCall program.now callee.method caller.method path.old.items path.new.items) }
{
    let Some(caller) = caller_of(uses, search, callee.place) else {
        unreachable!()
    };
    let Some(pc) = call_site(program, caller.method, callee.method) else {
        unreachable!()
    };
    path.push(Evidence {
        class: caller.method.class,
        index: caller.method.index,
        pc,
    })?;
    Ok(caller)
}

/// The calls that lead from the first method of a search to that of a place, the innermost first. Each finder stands
/// before what it found, so these are fewest.
///
/// # Errors
/// Where memory runs out.
pub(crate) fn path_to(
    alloc: Global,
    program: &Program,
    uses: &UseGraph,
    search: &Search,
    place: usize,
) -> Result<Vec<Evidence>, AllocError>
    requires uses { IsUseGraph program.now uses.now }
    requires tree { IsTree uses.now.calls search.now.seen.items search.now.finders.items }
    requires root { HasRoot uses.now search.now }
    requires here { (y : Declared) × StandsAt uses.now.methods search.now.seen.items place y }
    ensures { IfOk result (λ path. (x y : Declared) → StandsAt uses.now.methods search.now.seen.items 0 x
        → StandsAt uses.now.methods search.now.seen.items place y
        → Lead program.now x.class x.index y.class y.index path.items) }
{
    let mut path = Vec::new(alloc);
    let Some(mut callee) = step_at(uses, search, place) else {
        unreachable!()
    };
    while callee.place > 0 {
        callee = add_call(program, uses, search, callee, &mut path)?;
    }
    Ok(path)
}
