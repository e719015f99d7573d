//! What a vertex reaches.

ghost use Rattle.std.specs.Prelude.{◌≡◌, ℕ, ◌<◌, ◌↔◌, length, IfOk, OnOk};
ghost use Rattle.std.specs.List.{All, Contains};
ghost use Rattle.graph.specs.steps.Adds.{Adds};
ghost use Rattle.graph.specs.Reaches.{Reaches, IsReached};
ghost use Rattle.graph.specs.Seen.{AreDistinct};

use crate::graph::Graph;
use crate::visited::Visited;
use std::alloc::{AllocError, Global};

/// Adds the members of a row that are new.
///
/// # Errors
/// Where memory runs out.
pub fn visit(row: &[usize], seen: &mut Visited) -> Result<(), AllocError>
    requires { All (λ b. b < seen.old.limit) row.now }
    ensures limit { seen.new.limit ≡ seen.old.limit }
    ensures adds { OnOk result (Adds seen.old.items row.now seen.new.items) }
{
    for vertex in row {
        seen.add(*vertex)?;
    }
    Ok(())
}

/// The vertices that some of these reach, along no edge or more.
///
/// # Errors
/// Where memory runs out.
pub fn reach_all(alloc: Global, graph: &Graph, from: &[usize]) -> Result<Visited, AllocError>
    requires { All (λ v. v < length graph.now) from.now }
    ensures limit { IfOk result (λ seen. seen.limit ≡ length graph.now) }
    ensures distinct { IfOk result (λ seen. AreDistinct seen.items) }
    ensures members { IfOk result (λ seen. (m : ℕ) → Contains seen.items m ↔ IsReached graph.now from.now m) }
{
    let mut seen = Visited::new(alloc, graph.len())?;
    visit(from, &mut seen)?;
    let mut next = 0;
    while next < seen.len() {
        let vertex = seen.at(next);
        visit(graph.successors(vertex), &mut seen)?;
        next += 1;
    }
    Ok(seen)
}

/// The vertices that a vertex reaches, along no edge or more.
///
/// # Errors
/// Where memory runs out.
pub fn reach(alloc: Global, graph: &Graph, from: usize) -> Result<Visited, AllocError>
    requires { from < length graph.now }
    ensures limit { IfOk result (λ seen. seen.limit ≡ length graph.now) }
    ensures distinct { IfOk result (λ seen. AreDistinct seen.items) }
    ensures members { IfOk result (λ seen. (m : ℕ) → Contains seen.items m ↔ Reaches graph.now from m) }
{
    reach_all(alloc, graph, &[from])
}
