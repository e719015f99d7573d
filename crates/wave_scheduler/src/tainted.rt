//! Which classes depend on one that is not accepted.

ghost use Rattle.std.specs.Prelude.{◌≡◌, ◌+◌, ◌*◌, ◌<◌, ◌≤◌, ◌↔◌, [], length, IsTrue, IfOk, OnOk};
ghost use Rattle.use_graph.specs.steps.Bodies.{IsUseGraph};
ghost use Rattle.wave_scheduler.specs.Settled.{IsAccepted};
ghost use Rattle.wave_scheduler.specs.Outcomes.{settled_of};
ghost use Rattle.wave_scheduler.specs.steps.Tainting.{IsClosedIn, AddsReached, AreDependents, vertex_in, IsSeen};
ghost use Rattle.wave_scheduler.specs.steps.Tainting.{IsSearched, IsTaint, Spreads, IsOver, SeesOver, AreTainted};

use crate::outcome::Settled;
use graph::{Graph, Visited, reversed, visit};
use initializer_analysis::verdict::Verdict;
use initializer_analysis::{class_vertex, dependence_graph};
use program::Program;
use std::alloc::{AllocError, Global};
use use_graph::UseGraph;

/// The vertices that depend on classes that are not accepted. All searches for them look at each edge once in all.
#[derive(Drop)]
pub(crate) struct Tainted {
    /// From each method and class to what depends on it.
    dependents: Graph,
    /// The vertex of the first class: those of methods come before.
    first: usize,
    /// The vertices that depend on a class that is not accepted.
    seen: Visited,
}

/// Adds a vertex and all that it reaches, to vertices that have among them what they reach.
fn add_reached(graph: &Graph, vertex: usize, seen: &mut Visited) -> Result<(), AllocError>
    requires vertex { vertex < length graph.now }
    requires limit { seen.old.limit ≡ length graph.now }
    requires closed { IsClosedIn graph.now seen.old.items }
    ensures limit { seen.new.limit ≡ seen.old.limit }
    ensures members { OnOk result (AddsReached graph.now vertex seen.old.items seen.new.items) }
{
    let mut next = seen.len();
    seen.add(vertex)?;
    while next < seen.len() {
        let at = seen.at(next);
        visit(graph.successors(at), seen)?;
        next += 1;
    }
    Ok(())
}

/// The graph of dependence turned round: from each class and method to those that depend on it.
fn dependents_of(alloc: Global, program: &Program, uses: &UseGraph) -> Result<Graph, AllocError>
    requires { IsUseGraph program.now uses.now }
    ensures { IfOk result (AreDependents program.now uses.now) }
{
    match dependence_graph(alloc, program, uses) {
        Ok(graph) => reversed(alloc, &graph),
        Err(error) => Err(error),
    }
}

impl Tainted {
    /// Nothing yet, over a graph and from this first class's vertex on.
    fn none(alloc: Global, dependents: Graph, first: usize) -> Result<Tainted, AllocError>
        ensures over { IfOk result (IsOver dependents first) }
        ensures items { IfOk result (λ t. t.seen.items ≡ []) }
    {
        let seen = Visited::new(alloc, dependents.len())?;
        Ok(Tainted {
            dependents,
            first,
            seen,
        })
    }

    /// Whether a class depends on one that is not accepted.
    pub(crate) fn has(&self, class: u32) -> bool
        requires { IsSearched self.now }
        ensures { IsTrue result ↔ IsSeen self.now (vertex_in self.now class) }
    {
        self.seen.has(self.first + class as usize)
    }

    /// Adds what depends on a class.
    fn add(&mut self, class: u32) -> Result<(), AllocError>
        requires searched { IsSearched self.old }
        requires vertex { vertex_in self.old class < length self.old.dependents }
        ensures { OnOk result (Spreads class (Unit {0}) self.old self.new) }
    {
        let vertex = self.first + class as usize;
        add_reached(&self.dependents, vertex, &mut self.seen)?;
        Ok(())
    }

    /// Adds what depends on a class, if it is not accepted.
    pub(crate) fn add_refused(&mut self, settled: &Settled, class: u32) -> Result<(), AllocError>
        requires searched { IsSearched self.old }
        requires vertex { vertex_in self.old class < length self.old.dependents }
        requires class { class < length settled.now.verdicts }
        ensures { OnOk result (Spreads class (¬ IsAccepted (settled_of settled.now) class) self.old self.new) }
    {
        match settled.verdicts.as_slice()[class as usize] {
            Verdict::Wave(_) => Ok(()),
            Verdict::Refused(_) => {
                self.add(class)?;
                Ok(())
            }
        }
    }

    /// Adds what depends on any class that is not accepted.
    fn add_all_refused(&mut self, settled: &Settled, count: u32) -> Result<(), AllocError>
        requires few { self.old.first ≤ 2 * (65535 * 65535) }
        requires over { IsOver self.old.dependents self.old.first self.old }
        requires none { self.old.seen.items ≡ [] }
        requires vertices { length self.old.dependents ≡ self.old.first + count }
        requires count { length settled.now.verdicts ≡ count }
        ensures { OnOk result
            (SeesOver (settled_of settled.now) self.old.dependents self.old.first count self.new) }
    {
        for class in 0..count {
            self.add_refused(settled, class)?;
        }
        Ok(())
    }

    /// What depends on the classes that are not accepted, over a graph whose vertices of classes begin at `first`.
    fn over(
        alloc: Global,
        dependents: Graph,
        first: usize,
        settled: &Settled,
        count: u32,
    ) -> Result<Tainted, AllocError>
        requires few { first ≤ 2 * (65535 * 65535) }
        requires vertices { length dependents ≡ first + count }
        requires count { length settled.now.verdicts ≡ count }
        ensures { IfOk result (SeesOver (settled_of settled.now) dependents first count) }
    {
        match Tainted::none(alloc, dependents, first) {
            Ok(tainted) => {
                let mut tainted = tainted;
                match tainted.add_all_refused(settled, count) {
                    Ok(()) => Ok(tainted),
                    Err(error) => Err(error),
                }
            }
            Err(error) => Err(error),
        }
    }

    /// What depends on the classes of a program that are not accepted.
    pub(crate) fn of(
        alloc: Global,
        program: &Program,
        uses: &UseGraph,
        settled: &Settled,
    ) -> Result<Tainted, AllocError>
        requires uses { IsUseGraph program.now uses.now }
        requires count { length settled.now.verdicts ≡ length program.now.classes }
        ensures { IfOk result (AreTainted program.now (settled_of settled.now)) }
    {
        match dependents_of(alloc, program, uses) {
            Ok(dependents) => {
                let first = class_vertex(uses, 0);
                Tainted::over(alloc, dependents, first, settled, program.given_count())
            }
            Err(error) => Err(error),
        }
    }
}

/// What taints a class: itself, where it depends on one that is not accepted. Which of its uses is the first such is
/// not known yet.
pub(crate) fn taint(tainted: &Tainted, class: u32) -> Option<u32>
    requires { IsSearched tainted.now }
    ensures { IsTaint tainted.now class result }
{
    if tainted.has(class) {
        Some(class)
    } else {
        None
    }
}
