//! What the threads of entries may run.

ghost use Rattle.std.specs.Prelude.{IfOk};
ghost use Rattle.use_graph.specs.steps.Bodies.{IsUseGraph};
ghost use Rattle.audit.specs.steps.Reaching.{AreReachedMethods};

use crate::starts::first_vertices;
use graph::{Visited, reach_all};
use initializer_analysis::dependence_graph;
use program::Program;
use std::alloc::{AllocError, Global};
use use_graph::UseGraph;

/// The vertices of the methods and classes that threads of some entries may run and initialize.
pub(crate) fn reached_by(
    alloc: Global,
    program: &Program,
    uses: &UseGraph,
    entries: &[u32],
) -> Result<Visited, AllocError>
    requires { IsUseGraph program.now uses.now }
    ensures { IfOk result
        (λ reached. AreReachedMethods program.now uses.now.methods entries.now reached.items) }
{
    // Each method has one number.
    let _once = uses.methods.method(0);
    let from = first_vertices(alloc, program, uses, entries)?;
    let graph = dependence_graph(alloc, program, uses)?;
    let reached = reach_all(alloc, &graph, &from)?;
    Ok(reached)
}
