//! Which classes may be initialized at build time, as if no run of an initializer were refused.
//!
//! Each function makes one part and hands it to the next at once: one that held several parts where a call can fail
//! would be dear to prove.

ghost use Rattle.std.specs.Prelude.{◌≡◌, ◌≤◌, ◌*◌, ◌+◌, ℕ, length, IfOk};
ghost use Rattle.graph.specs.Components.{AreComponents};
ghost use Rattle.use_graph.specs.steps.Bodies.{IsUseGraph};
ghost use Rattle.initializer_analysis.specs.steps.OwnReasons.{AreOwnReasons};
ghost use Rattle.initializer_analysis.specs.Verdicts.{AreVerdicts};
ghost use Rattle.initializer_analysis.specs.steps.Dependence.{IsDependence, AreDependences};
ghost use Rattle.initializer_analysis.specs.steps.Judging.{verdict_by, AreVerdictsBy, IsJudged, AreJudgedBy};

use crate::cycles::cycles;
use crate::dependence::{class_vertex, dependence_graph};
use crate::forced::Forced;
use crate::reasons::own_reasons;
use crate::refused_classes::refused_classes;
use crate::refused_uses::first_refused;
use crate::verdict::{Reason, Verdict, Verdicts};
use crate::waves::class_heights;
use graph::{Components, Graph, components_of};
use program::Program;
use std::alloc::{AllocError, Global};
use use_graph::UseGraph;

/// What the methods and classes of a program may use and depend on.
#[derive(Clone, Copy)]
struct Graphs<'a> {
    uses: &'a UseGraph,
    /// The components of the graph of calls.
    calls: &'a Components,
    dependences: &'a Graph,
    /// Their components.
    components: &'a Components,
}

/// The verdict on a class: a reason of its own, the first refused class that it uses, or its wave.
fn verdict_by(reason: Option<Reason>, first: Option<u32>, wave: usize) -> Verdict
    ensures { result ≡ verdict_by reason first wave }
{
    match reason {
        Some(reason) => Verdict::Refused(reason),
        None => match first {
            Some(class) => Verdict::Refused(Reason::DependsOn(class)),
            None => Verdict::Wave(wave),
        },
    }
}

/// The verdicts on all classes, from what is known of each.
fn verdicts_by(
    alloc: Global,
    uses: &UseGraph,
    reasons: &[Option<Reason>],
    first: &[Option<u32>],
    heights: &[usize],
    limit: u32,
) -> Result<Verdicts, AllocError>
    requires few { length uses.now.calls ≤ 2 * (65535 * 65535) }
    requires reasons { length reasons.now ≡ limit }
    requires first { length first.now ≡ limit }
    requires heights { length heights.now ≡ length uses.now.calls + limit }
    ensures { IfOk result (AreVerdictsBy uses.now reasons.now first.now heights.now limit) }
{
    let mut verdicts = Vec::with_capacity(alloc, limit as usize)?;
    for class in 0..limit {
        let place = class as usize;
        let wave = heights[class_vertex(uses, class)];
        verdicts.push(verdict_by(reasons[place], first[place], wave))?;
    }
    Ok(Verdicts::of(verdicts))
}

/// The verdicts, where it is known which classes are refused.
fn verdicts_of(
    alloc: Global,
    program: &Program,
    graphs: Graphs<'_>,
    reasons: &[Option<Reason>],
    refused: &[bool],
) -> Result<Verdicts, AllocError>
    requires dependences { AreDependences program.now graphs.uses.now graphs.dependences.now graphs.components.now }
    requires calls { AreComponents graphs.uses.now.calls graphs.calls.now }
    requires reasons { length reasons.now ≡ length program.now.classes }
    ensures { IfOk result
        (IsJudged program.now graphs.entry.uses.now graphs.entry.dependences.now reasons.now refused.now) }
{
    let Graphs {
        uses,
        calls,
        dependences,
        components,
    } = graphs;
    let first = first_refused(alloc, program, uses, calls, refused)?;
    let heights = class_heights(alloc, program, uses, dependences, components)?;
    let verdicts = verdicts_by(
        alloc,
        uses,
        reasons,
        first.as_slice(),
        heights.as_slice(),
        program.given_count(),
    )?;
    Ok(verdicts)
}

/// The verdicts, where the reasons of their own are known of all classes.
fn judge_known(
    alloc: Global,
    program: &Program,
    graphs: Graphs<'_>,
    reasons: &[Option<Reason>],
) -> Result<Verdicts, AllocError>
    requires dependences { AreDependences program.now graphs.uses.now graphs.dependences.now graphs.components.now }
    requires calls { AreComponents graphs.uses.now.calls graphs.calls.now }
    requires reasons { length reasons.now ≡ length program.now.classes }
    ensures { IfOk result
        (AreJudgedBy program.now graphs.entry.uses.now graphs.entry.dependences.now reasons.now) }
{
    let refused = refused_classes(
        alloc,
        program,
        graphs.uses,
        graphs.dependences,
        graphs.components,
        reasons,
    )?;
    let verdicts = verdicts_of(alloc, program, graphs, reasons, refused.as_slice())?;
    Ok(verdicts)
}

/// The reasons of their own of all classes, from what classes and methods depend on.
fn reasons_by(
    alloc: Global,
    program: &Program,
    forced: &Forced,
    graphs: Graphs<'_>,
) -> Result<Vec<Option<Reason>>, AllocError>
    requires dependences { AreDependences program.now graphs.uses.now graphs.dependences.now graphs.components.now }
    requires calls { AreComponents graphs.uses.now.calls graphs.calls.now }
    ensures { IfOk result (λ reasons. AreOwnReasons program.now forced.now reasons.items) }
{
    let Graphs {
        uses,
        calls,
        dependences,
        components,
    } = graphs;
    match cycles(alloc, program, uses, dependences, components) {
        Ok(on_cycle) => own_reasons(alloc, program, uses, calls, forced, on_cycle.as_slice()),
        Err(error) => Err(error),
    }
}

/// The verdicts, from what classes and methods depend on and its components.
fn judge_over(
    alloc: Global,
    program: &Program,
    forced: &Forced,
    graphs: Graphs<'_>,
) -> Result<Verdicts, AllocError>
    requires dependences { AreDependences program.now graphs.uses.now graphs.dependences.now graphs.components.now }
    requires calls { AreComponents graphs.uses.now.calls graphs.calls.now }
    ensures { IfOk result (AreVerdicts program.now forced.now) }
{
    match reasons_by(alloc, program, forced, graphs) {
        Ok(reasons) => judge_known(alloc, program, graphs, reasons.as_slice()),
        Err(error) => Err(error),
    }
}

/// The verdicts, from what classes and methods depend on.
fn judge_graph(
    alloc: Global,
    program: &Program,
    forced: &Forced,
    uses: &UseGraph,
    calls: &Components,
    graph: &Graph,
) -> Result<Verdicts, AllocError>
    requires uses { IsUseGraph program.now uses.now }
    requires calls { AreComponents uses.now.calls calls.now }
    requires graph { IsDependence program.now uses.now graph.now }
    ensures { IfOk result (AreVerdicts program.now forced.now) }
{
    match components_of(alloc, graph) {
        Ok(components) => {
            let graphs = Graphs {
                uses,
                calls,
                dependences: graph,
                components: &components,
            };
            judge_over(alloc, program, forced, graphs)
        }
        Err(error) => Err(error),
    }
}

/// The verdicts, where the components of the graph of calls are known.
fn judge_calls(
    alloc: Global,
    program: &Program,
    forced: &Forced,
    uses: &UseGraph,
    calls: &Components,
) -> Result<Verdicts, AllocError>
    requires uses { IsUseGraph program.now uses.now }
    requires calls { AreComponents uses.now.calls calls.now }
    ensures { IfOk result (AreVerdicts program.now forced.now) }
{
    match dependence_graph(alloc, program, uses) {
        Ok(graph) => judge_graph(alloc, program, forced, uses, calls, &graph),
        Err(error) => Err(error),
    }
}

/// The verdicts on the classes of a program, by what its methods may call, need and do.
fn judge_by(
    alloc: Global,
    program: &Program,
    forced: &Forced,
    uses: &UseGraph,
) -> Result<Verdicts, AllocError>
    requires { IsUseGraph program.now uses.now }
    ensures { IfOk result (AreVerdicts program.now forced.now) }
{
    match components_of(alloc, &uses.calls) {
        Ok(calls) => judge_calls(alloc, program, forced, uses, &calls),
        Err(error) => Err(error),
    }
}

/// The verdicts on the classes of a program: for each a wave, or the reason for which it is not initialized at build
/// time. It takes time near linear in the program.
///
/// # Errors
/// Where memory runs out.
pub fn judge(alloc: Global, program: &Program, forced: &Forced) -> Result<Verdicts, AllocError>
    ensures { IfOk result (AreVerdicts program.now forced.now) }
{
    match UseGraph::of_program(alloc, program) {
        Ok(uses) => judge_by(alloc, program, forced, &uses),
        Err(error) => Err(error),
    }
}
