//! Searches of a graph that keep from where each vertex was found.

ghost use Rattle.std.specs.Prelude.{◌≡◌, ◌↔◌, ℕ, ◌<◌, [], Some, length, slice_get, IfOk, OnOk};
ghost use Rattle.std.specs.List.{All, Contains};
ghost use Rattle.graph.specs.Rows.{Rows, successors_of};
ghost use Rattle.graph.specs.Reaches.{Reaches};
ghost use Rattle.graph.specs.steps.Adds.{Adds};
ghost use Rattle.explain.specs.steps.Trees.{IsTree, JoinsFrom};

use graph::{Graph, Visited};
use std::alloc::{AllocError, Global};

/// The vertices that one reaches, the nearest first, each with the place of the one from which it was found.
#[derive(Drop)]
pub struct Search {
    pub(crate) seen: Visited,
    /// By place; of the first its own.
    pub(crate) finders: Vec<usize>,
}

/// Adds a vertex, if it is new, as found from a place.
fn add_found(
    vertex: usize,
    place: usize,
    seen: &mut Visited,
    finders: &mut Vec<usize>,
) -> Result<(), AllocError>
    requires { vertex < seen.old.limit }
    ensures limit { seen.new.limit ≡ seen.old.limit }
    ensures joins { OnOk result
        (JoinsFrom vertex place seen.old.items finders.old.items seen.new.items finders.new.items) }
{
    if seen.add(vertex)? {
        finders.push(place)?;
    }
    Ok(())
}

/// Adds those of some vertices that are new, as found from a place.
fn add_vertices(
    vertices: &[usize],
    place: usize,
    seen: &mut Visited,
    finders: &mut Vec<usize>,
) -> Result<(), AllocError>
    requires { All (λ b. b < seen.old.limit) vertices.now }
    ensures limit { seen.new.limit ≡ seen.old.limit }
    ensures adds { OnOk result (Adds seen.old.items vertices.now seen.new.items) }
    ensures tree { OnOk result
        ((graph : Rows) (u : ℕ) → slice_get seen.old.items place ≡ Some u → successors_of graph u ≡ vertices.now
        → IsTree graph seen.old.items finders.old.items → IsTree graph seen.new.items finders.new.items) }
{
    for vertex in vertices {
        add_found(*vertex, place, seen, finders)?;
    }
    Ok(())
}

/// Adds what a vertex reaches, where nothing was seen yet.
fn search_from(
    graph: &Graph,
    from: usize,
    seen: &mut Visited,
    finders: &mut Vec<usize>,
) -> Result<(), AllocError>
    requires none { seen.old.items ≡ [] }
    requires unfound { finders.old.items ≡ [] }
    requires limit { seen.old.limit ≡ length graph.now }
    requires from { from < length graph.now }
    ensures limit { seen.new.limit ≡ length graph.now }
    ensures members { OnOk result ((m : ℕ) → Contains seen.new.items m ↔ Reaches graph.now from m) }
    ensures tree { OnOk result (IsTree graph.now seen.new.items finders.new.items) }
    ensures root { OnOk result (slice_get seen.new.items 0 ≡ Some from) }
{
    add_found(from, 0, seen, finders)?;
    let mut next = 0;
    while next < seen.len() {
        let vertex = seen.at(next);
        add_vertices(graph.successors(vertex), next, seen, finders)?;
        next += 1;
    }
    Ok(())
}

impl Search {
    /// A search that has found nothing yet, in a graph of `limit` vertices.
    ///
    /// # Errors
    /// Where memory runs out.
    pub fn new(alloc: Global, limit: usize) -> Result<Search, AllocError>
        ensures { IfOk result (λ search. search.seen.limit ≡ limit) }
    {
        let seen = Visited::new(alloc, limit)?;
        Ok(Search {
            seen,
            finders: Vec::new(alloc),
        })
    }

    /// Forgets what was found.
    pub fn clear(&mut self)
        ensures limit { self.new.seen.limit ≡ self.old.seen.limit }
        ensures none { self.new.seen.items ≡ [] }
        ensures unfound { self.new.finders.items ≡ [] }
    {
        self.seen.clear();
        self.finders.clear();
    }

    /// Searches from a vertex, and forgets what was found before. It takes time in proportion to what is reached.
    ///
    /// # Errors
    /// Where memory runs out.
    pub fn run(&mut self, graph: &Graph, from: usize) -> Result<(), AllocError>
        requires limit { self.old.seen.limit ≡ length graph.now }
        requires from { from < length graph.now }
        ensures limit { self.new.seen.limit ≡ length graph.now }
        ensures members { OnOk result ((m : ℕ) → Contains self.new.seen.items m ↔ Reaches graph.now from m) }
        ensures tree { OnOk result (IsTree graph.now self.new.seen.items self.new.finders.items) }
        ensures root { OnOk result (slice_get self.new.seen.items 0 ≡ Some from) }
    {
        self.clear();
        search_from(graph, from, &mut self.seen, &mut self.finders)
    }
}
