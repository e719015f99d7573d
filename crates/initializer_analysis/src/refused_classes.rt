//! Which classes depend on one that is refused for a reason of its own, itself among them.

ghost use Rattle.std.specs.Prelude.{◌≡◌, length, IfOk, OnOk};
ghost use Rattle.initializer_analysis.specs.steps.Dependence.{HaveVertices, AreDependences};
ghost use Rattle.initializer_analysis.specs.steps.Judging.{label_by, Labelled, AreOwnLabels, AreFirstThere, AreRefused};

use crate::dependence::class_vertex;
use crate::labels::Least;
use crate::reached_labels::least_reached;
use crate::verdict::Reason;
use graph::{Components, Graph};
use program::Program;
use std::alloc::{AllocError, Global};
use use_graph::UseGraph;

/// The label of a class that is refused for a reason of its own: its number.
fn label_by(reason: Option<Reason>, class: u32) -> Option<u32>
    ensures { result ≡ label_by reason class }
{
    match reason {
        Some(_) => Some(class),
        None => None,
    }
}

/// Adds the labels of classes, by their numbers.
fn add_labels(
    reasons: &[Option<Reason>],
    limit: u32,
    own: &mut Vec<Least>,
) -> Result<(), AllocError>
    requires { length reasons.now ≡ limit }
    ensures { OnOk result (Labelled reasons.now limit own.old.items own.new.items) }
{
    for class in 0..limit {
        own.push(Least {
            first: label_by(reasons[class as usize], class),
            second: None,
        })?;
    }
    Ok(())
}

/// The labels of all vertices: those of classes that are refused for a reason of their own.
fn own_labels(
    alloc: Global,
    uses: &UseGraph,
    reasons: &[Option<Reason>],
    limit: u32,
) -> Result<Vec<Least>, AllocError>
    requires { length reasons.now ≡ limit }
    ensures { IfOk result (λ own. AreOwnLabels uses.now reasons.now limit own.items) }
{
    let mut own = vec![in alloc; Least::none(); uses.calls.len()]?;
    match add_labels(reasons, limit, &mut own) {
        Ok(()) => Ok(own),
        Err(error) => Err(error),
    }
}

/// Whether the vertex of each class reaches a label.
fn labelled_classes(
    alloc: Global,
    uses: &UseGraph,
    least: &[Least],
    limit: u32,
) -> Result<Vec<bool>, AllocError>
    requires { HaveVertices uses.now limit (length least.now) }
    ensures { IfOk result (λ there. AreFirstThere uses.now least.now limit there.items) }
{
    let mut there = Vec::with_capacity(alloc, limit as usize)?;
    for class in 0..limit {
        let label = least[class_vertex(uses, class)].first;
        there.push(label.is_some())?;
    }
    Ok(there)
}

/// For each given class whether it depends on one that is refused for a reason of its own.
pub(crate) fn refused_classes(
    alloc: Global,
    program: &Program,
    uses: &UseGraph,
    graph: &Graph,
    components: &Components,
    reasons: &[Option<Reason>],
) -> Result<Vec<bool>, AllocError>
    requires dependences { AreDependences program.now uses.now graph.now components.now }
    requires reasons { length reasons.now ≡ length program.now.classes }
    ensures { IfOk result (λ refused. AreRefused program.now uses.now graph.now reasons.now refused.items) }
{
    let limit = program.given_count();
    let own = own_labels(alloc, uses, reasons, limit)?;
    let least = least_reached(alloc, graph, components, own.as_slice())?;
    let refused = labelled_classes(alloc, uses, least.as_slice(), limit)?;
    Ok(refused)
}
