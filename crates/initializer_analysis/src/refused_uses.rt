//! The first refused class that a class uses, of all classes at once.

ghost use Rattle.std.specs.Prelude.{◌≡◌, ◌↔◌, ℕ, ◌≤◌, false, Some, length, slice_index_or, IfOk};
ghost use Rattle.graph.specs.Components.{AreComponents};
ghost use Rattle.use_graph.specs.steps.Bodies.{IsUseGraph};
ghost use Rattle.use_graph.specs.steps.Deeds.{HoldsOfOne};
ghost use Rattle.initializer_analysis.specs.Least.{IsFirst, AreLeast};
ghost use Rattle.initializer_analysis.specs.RefusedUses.{IsRefusedUse, AreFirstRefused};
ghost use Rattle.initializer_analysis.specs.steps.Marking.{HasLeastOf};
ghost use Rattle.initializer_analysis.specs.steps.RefusedUses.{IsRefusedOf, NeedsRefused, AreRefusedNeeds};

use crate::labels::Least;
use crate::reached_labels::least_reached;
use graph::Components;
use program::Program;
use std::alloc::{AllocError, Global};
use use_graph::{UseGraph, start_of};

/// Whether a class is refused: a number beyond the flags is not.
fn is_refused(refused: &[bool], class: u32) -> bool
    ensures { result ≡ slice_index_or refused.now class false }
{
    match refused.get(class as usize) {
        Some(flag) => *flag,
        None => false,
    }
}

/// A class, if it is below a limit and refused.
fn refused_label(class: u32, limit: u32, refused: &[bool]) -> Option<u32>
    ensures { (e : ℕ) → (result ≡ Some e) ↔ IsRefusedOf refused.now limit class e }
{
    if class < limit && is_refused(refused, class) {
        Some(class)
    } else {
        None
    }
}

/// The least of those of some classes that are below a limit and refused.
fn refused_among(classes: &[u32], limit: u32, refused: &[bool]) -> Least
    ensures { AreLeast (HoldsOfOne (IsRefusedOf refused.now limit) classes.now) result }
{
    let mut least = Least::none();
    for class in classes {
        let label = refused_label(*class, limit, refused);
        least = least.join(Least::of(label));
    }
    least
}

/// The least of those that the method of a vertex needs, if it is one.
fn refused_at(uses: &UseGraph, vertex: usize, limit: u32, refused: &[bool]) -> Least
    ensures { AreLeast (NeedsRefused uses.now.bodies.items refused.now limit vertex) result }
{
    match uses.body(vertex) {
        Some(body) => refused_among(&body.needs, limit, refused),
        None => Least::none(),
    }
}

/// The least refused classes that the method of each vertex of the calls needs.
fn own_refused(
    alloc: Global,
    uses: &UseGraph,
    limit: u32,
    refused: &[bool],
) -> Result<Vec<Least>, AllocError>
    requires { length uses.now.bodies.items ≤ length uses.now.calls }
    ensures len { IfOk result (λ own. length own.items ≡ length uses.now.calls) }
    ensures own { IfOk result
        (λ own. HasLeastOf (NeedsRefused uses.now.bodies.items refused.now limit) own.items) }
{
    let mut own = Vec::with_capacity(alloc, uses.calls.len())?;
    for vertex in 0..uses.calls.len() {
        own.push(refused_at(uses, vertex, limit, refused))?;
    }
    Ok(own)
}

/// For each vertex of the calls the least refused classes that the methods need which it reaches.
fn refused_needs(
    alloc: Global,
    uses: &UseGraph,
    components: &Components,
    limit: u32,
    refused: &[bool],
) -> Result<Vec<Least>, AllocError>
    requires bodies { length uses.now.bodies.items ≤ length uses.now.calls }
    requires components { AreComponents uses.now.calls components.now }
    ensures { IfOk result (λ table. AreRefusedNeeds uses.now refused.now limit table.items) }
{
    let own = own_refused(alloc, uses, limit, refused)?;
    least_reached(alloc, &uses.calls, components, own.as_slice())
}

/// The first refused class that a class uses, by the table of what methods need.
fn first_refused_by(
    program: &Program,
    uses: &UseGraph,
    refused: &[bool],
    table: &[Least],
    class: u32,
) -> Option<u32>
    requires uses { IsUseGraph program.now uses.now }
    requires table { AreRefusedNeeds uses.now refused.now (length program.now.classes) table.now }
    ensures { IsFirst (IsRefusedUse program.now refused.now class) result }
{
    let limit = program.given_count();
    let before = refused_among(program.init_order(class), limit, refused);
    match start_of(program, uses, class) {
        Some(vertex) => before.join(table[vertex]).first_but(class),
        None => before.first_but(class),
    }
}

/// The first refused class that each given class uses.
fn first_of_each(
    alloc: Global,
    program: &Program,
    uses: &UseGraph,
    refused: &[bool],
    table: &[Least],
) -> Result<Vec<Option<u32>>, AllocError>
    requires uses { IsUseGraph program.now uses.now }
    requires table { AreRefusedNeeds uses.now refused.now (length program.now.classes) table.now }
    ensures { IfOk result (λ first. AreFirstRefused program.now refused.now first.items) }
{
    let limit = program.given_count();
    let mut first = Vec::new(alloc);
    for class in 0..limit {
        first.push(first_refused_by(program, uses, refused, table, class))?;
    }
    Ok(first)
}

/// For each given class the first refused class that it uses, if it uses one. It takes time near linear in the program.
///
/// # Errors
/// Where memory runs out.
pub fn first_refused(
    alloc: Global,
    program: &Program,
    uses: &UseGraph,
    components: &Components,
    refused: &[bool],
) -> Result<Vec<Option<u32>>, AllocError>
    requires uses { IsUseGraph program.now uses.now }
    requires components { AreComponents uses.now.calls components.now }
    ensures { IfOk result (λ first. AreFirstRefused program.now refused.now first.items) }
{
    let limit = program.given_count();
    let table = refused_needs(alloc, uses, components, limit, refused)?;
    first_of_each(alloc, program, uses, refused, table.as_slice())
}
