//! The first reason that holds of a class by itself, of all classes at once.

ghost use Rattle.std.specs.Prelude.{◌≡◌, ℕ, ◌<◌, List, Bool, None, false, length, replicate, slice_index_or, IsTrue};
ghost use Rattle.std.specs.Prelude.{IfOk, OnOk};
ghost use Rattle.graph.specs.Components.{AreComponents};
ghost use Rattle.use_graph.specs.Uses.{HasMark};
ghost use Rattle.use_graph.specs.steps.Bodies.{IsUseGraph};
ghost use Rattle.initializer_analysis.specs.Forced.{has_class};
ghost use Rattle.initializer_analysis.specs.steps.OwnReasons.{AreOnCycles, AreOwnReasons};
ghost use Rattle.initializer_analysis.specs.steps.Marking.{AreMarks};
ghost use Rattle.initializer_analysis.specs.steps.Reasons.{IsNext, AddsReason, AreFirstBelow};

use crate::forced::Forced;
use crate::labels::Least;
use crate::marking::{bears, marks_of};
use crate::verdict::Reason;
use graph::Components;
use program::Program;
use std::alloc::{AllocError, Global};
use use_graph::UseGraph;
use use_graph::mark::Mark;

/// What is told of a class: what was, or else this reason, if it holds.
fn next_reason(known: Option<Reason>, holds: bool, reason: Reason) -> Option<Reason>
    ensures { IsNext (IsTrue holds) reason known result }
{
    match known {
        Some(_) => known,
        None => { if holds { Some(reason) } else { None } }
    }
}

/// Tells of each class whether it is to be initialized at run time.
fn add_forced(program: &Program, forced: &Forced, reasons: &mut [Option<Reason>])
    requires { length reasons.old ≡ length program.now.classes }
    ensures { AddsReason (λ c. IsTrue (has_class forced.now c)) Reason.Forced reasons.old reasons.new }
{
    for class in 0..program.given_count() {
        let place = class as usize;
        let next = next_reason(reasons[place], forced.has(class), Reason::Forced);
        reasons[place] = next;
    }
}

/// Tells of each class whether its code bears a mark, by the table of that mark.
fn add_marked(
    program: &Program,
    uses: &UseGraph,
    table: &[Least],
    mark: Mark,
    reasons: &mut [Option<Reason>],
)
    requires uses { IsUseGraph program.now uses.now }
    requires table { AreMarks uses.now mark table.now }
    requires len { length reasons.old ≡ length program.now.classes }
    ensures { AddsReason (λ c. HasMark program.now c mark) (Reason.Marked mark) reasons.old reasons.new }
{
    for class in 0..program.given_count() {
        let place = class as usize;
        let marked = bears(program, uses, table, class, mark);
        let next = next_reason(reasons[place], marked, Reason::Marked(mark));
        reasons[place] = next;
    }
}

/// Tells of each class whether it uses itself by way of others.
fn add_cycles(on_cycle: &[bool], reasons: &mut [Option<Reason>])
    requires { length on_cycle.now ≡ length reasons.old }
    ensures { AddsReason (λ c. IsTrue (slice_index_or on_cycle.now c false)) Reason.Cycle reasons.old reasons.new }
{
    for place in 0..on_cycle.len() {
        let next = next_reason(reasons[place], on_cycle[place], Reason::Cycle);
        reasons[place] = next;
    }
}

/// Tells of each class whether its code bears a mark.
fn add_mark(
    alloc: Global,
    program: &Program,
    uses: &UseGraph,
    components: &Components,
    mark: Mark,
    reasons: &mut [Option<Reason>],
) -> Result<(), AllocError>
    requires uses { IsUseGraph program.now uses.now }
    requires components { AreComponents uses.now.calls components.now }
    requires len { length reasons.old ≡ length program.now.classes }
    ensures { OnOk result
        (AddsReason (λ c. HasMark program.now c mark) (Reason.Marked mark) reasons.old reasons.new) }
{
    let table = marks_of(alloc, uses, components, mark)?;
    add_marked(program, uses, table.as_slice(), mark, reasons);
    Ok(())
}

/// The marks, the least first.
const MARKS: [Mark; 7] = [
    Mark::Prints,
    Mark::Throws,
    Mark::Monitors,
    Mark::ForeignWrite,
    Mark::ForeignRead,
    Mark::Unsupported,
    Mark::Missing,
];

/// Tells of each class which mark its code bears first, where nothing was told.
fn add_marks(
    alloc: Global,
    program: &Program,
    uses: &UseGraph,
    components: &Components,
    reasons: &mut [Option<Reason>],
) -> Result<(), AllocError>
    requires uses { IsUseGraph program.now uses.now }
    requires components { AreComponents uses.now.calls components.now }
    requires len { length reasons.old ≡ length program.now.classes }
    ensures { OnOk result ((forced : List Bool) → AreFirstBelow program.now forced 2 reasons.old
        → AreFirstBelow program.now forced 9 reasons.new) }
{
    for mark in MARKS {
        add_mark(alloc, program, uses, components, mark, reasons)?;
    }
    Ok(())
}

/// Tells of each class the first reason that holds of it by itself, where nothing was told.
fn add_reasons(
    alloc: Global,
    program: &Program,
    uses: &UseGraph,
    components: &Components,
    forced: &Forced,
    on_cycle: &[bool],
    reasons: &mut [Option<Reason>],
) -> Result<(), AllocError>
    requires uses { IsUseGraph program.now uses.now }
    requires components { AreComponents uses.now.calls components.now }
    requires on_cycle { AreOnCycles program.now on_cycle.now }
    requires none { reasons.old ≡ replicate (length program.now.classes) None }
    ensures { OnOk result (AreOwnReasons program.now forced.now reasons.new) }
{
    add_forced(program, forced, reasons);
    add_marks(alloc, program, uses, components, reasons)?;
    add_cycles(on_cycle, reasons);
    Ok(())
}

/// No reasons, for `count` classes.
fn no_reasons(alloc: Global, count: u32) -> Result<Vec<Option<Reason>>, AllocError>
    ensures { IfOk result (λ reasons. reasons.items ≡ replicate count None) }
{
    vec![in alloc; None; count as usize]
}

/// A table of no reasons, with the first reason of each class that has one.
fn with_reasons(
    alloc: Global,
    program: &Program,
    uses: &UseGraph,
    components: &Components,
    forced: &Forced,
    on_cycle: &[bool],
    reasons: Vec<Option<Reason>>,
) -> Result<Vec<Option<Reason>>, AllocError>
    requires uses { IsUseGraph program.now uses.now }
    requires components { AreComponents uses.now.calls components.now }
    requires on_cycle { AreOnCycles program.now on_cycle.now }
    requires none { reasons.items ≡ replicate (length program.now.classes) None }
    ensures { IfOk result (λ reasons. AreOwnReasons program.now forced.now reasons.items) }
{
    let mut reasons = reasons;
    match add_reasons(
        alloc,
        program,
        uses,
        components,
        forced,
        on_cycle,
        &mut reasons,
    ) {
        Ok(()) => Ok(reasons),
        Err(error) => Err(error),
    }
}

/// For each given class the first reason that holds of it by itself, if one does: that it is to be initialized at run
/// time, that its code bears a mark, or that it is on a cycle of uses, as these marks tell. It takes time near linear
/// in the program.
///
/// # Errors
/// Where memory runs out.
pub(crate) fn own_reasons(
    alloc: Global,
    program: &Program,
    uses: &UseGraph,
    components: &Components,
    forced: &Forced,
    on_cycle: &[bool],
) -> Result<Vec<Option<Reason>>, AllocError>
    requires uses { IsUseGraph program.now uses.now }
    requires components { AreComponents uses.now.calls components.now }
    requires on_cycle { AreOnCycles program.now on_cycle.now }
    ensures { IfOk result (λ reasons. AreOwnReasons program.now forced.now reasons.items) }
{
    match no_reasons(alloc, program.given_count()) {
        Ok(reasons) => with_reasons(alloc, program, uses, components, forced, on_cycle, reasons),
        Err(error) => Err(error),
    }
}
