//! How high classes stand above others that they use.

ghost use Rattle.std.specs.Prelude.{◌≡◌, length, IfOk, OnOk};
ghost use Rattle.graph.specs.Components.{AreComponents};
ghost use Rattle.initializer_analysis.specs.steps.Dependence.{IsDependence};
ghost use Rattle.initializer_analysis.specs.steps.Judging.{AreFlaggedFrom, AreClassFlags, AreClassHeights};

use crate::flagged_heights::heights;
use graph::{Components, Graph};
use program::Program;
use std::alloc::{AllocError, Global};
use use_graph::UseGraph;

/// Adds a flag for each class.
fn flag_classes(limit: u32, flags: &mut Vec<bool>) -> Result<(), AllocError>
    ensures { OnOk result (AreFlaggedFrom limit flags.old.items flags.new.items) }
{
    for _class in 0..limit {
        flags.push(true)?;
    }
    Ok(())
}

/// Flags the vertices of classes.
fn class_flags(alloc: Global, uses: &UseGraph, limit: u32) -> Result<Vec<bool>, AllocError>
    ensures { IfOk result (λ flags. AreClassFlags uses.now limit flags.items) }
{
    let mut flags = vec![in alloc; false; uses.calls.len()]?;
    match flag_classes(limit, &mut flags) {
        Ok(()) => Ok(flags),
        Err(error) => Err(error),
    }
}

/// How high the vertex of each class stands above those of others.
pub(crate) fn class_heights(
    alloc: Global,
    program: &Program,
    uses: &UseGraph,
    graph: &Graph,
    components: &Components,
) -> Result<Vec<usize>, AllocError>
    requires graph { IsDependence program.now uses.now graph.now }
    requires components { AreComponents graph.now components.now }
    ensures len { IfOk result (λ heights. length heights.items ≡ length graph.now) }
    ensures heights { IfOk result (λ heights. AreClassHeights program.now uses.now graph.now heights.items) }
{
    let flags = class_flags(alloc, uses, program.given_count())?;
    let heights = heights(alloc, graph, components, flags.as_slice())?;
    Ok(heights)
}
