//! An order of the vertices, by a descent in depth.

ghost use Rattle.std.specs.Prelude.{◌≡◌, ℕ, ◌+◌, ◌-◌, ◌*◌, ◌<◌, ◌≤◌, [], ◌∷◌, ◌++◌, length, replicate, slice_index};
ghost use Rattle.std.specs.Prelude.{IfOk, OnOk, vec_len};
ghost use Rattle.std.specs.List.{Contains};
ghost use Rattle.graph.specs.Order.{IsPostorder};
ghost use Rattle.graph.specs.steps.Finishing.{IsFinishingOrder};
ghost use Rattle.graph.specs.steps.Descending.{Descending};

use crate::graph::Graph;
use crate::visited::Visited;
use std::alloc::{AllocError, Global};

/// A descent: what was seen is on the path or finished.
#[derive(Drop)]
struct Descent {
    seen: Visited,
    /// From a root down, each the successor of the one before.
    path: Vec<usize>,
    /// By vertex: how many of its successors were passed.
    passed: Vec<usize>,
    finished: Vec<usize>,
}

/// The first place from `from` on whose vertex was not seen, or the row's length.
fn skip(row: &[usize], from: usize, seen: &Visited) -> usize
    requires from { from ≤ length row.now }
    requires before { (j : ℕ) → j < from → Contains seen.now.items (slice_index row.now j) }
    ensures bound { result ≤ length row.now }
    ensures passed { (j : ℕ) → j < result → Contains seen.now.items (slice_index row.now j) }
    ensures stops { result < length row.now → ¬ Contains seen.now.items (slice_index row.now result) }
{
    let mut at = from;
    while at < row.len() {
        if !seen.has(row[at]) {
            return at;
        }
        at += 1;
    }
    at
}

/// One step from the end of the path: to a successor that was not seen, or back.
fn step(descent: &mut Descent, graph: &Graph) -> Result<(), AllocError>
    requires limit { descent.old.seen.limit ≡ length graph.now }
    requires passed { length descent.old.passed.items ≡ length graph.now }
    requires open { 0 < vec_len descent.old.path }
    requires descending { Descending graph.now descent.old.seen.items descent.old.path.items descent.old.passed.items
        descent.old.finished.items }
    ensures limit { descent.new.seen.limit ≡ length graph.now }
    ensures passed { length descent.new.passed.items ≡ length graph.now }
    ensures keeps { OnOk result ((x : ℕ) → Contains descent.old.seen.items x → Contains descent.new.seen.items x) }
    ensures nearer { OnOk result
        (2 * (length graph.now - length descent.new.seen.items) + vec_len descent.new.path
        < 2 * (length graph.now - length descent.old.seen.items) + vec_len descent.old.path) }
    ensures descending { OnOk result
        (Descending graph.now descent.new.seen.items descent.new.path.items descent.new.passed.items
        descent.new.finished.items) }
{
    let vertex = descent.path[descent.path.len() - 1];
    let row = graph.successors(vertex);
    let next = skip(row, descent.passed[vertex], &descent.seen);
    descent.passed[vertex] = next;
    if next < row.len() {
        go_down(descent, row[next])?;
    } else {
        go_up(descent, vertex)?;
    }
    Ok(())
}

/// A vertex that was not seen goes onto the path.
fn go_down(descent: &mut Descent, to: usize) -> Result<(), AllocError>
    requires below { to < descent.old.seen.limit }
    requires fresh { ¬ Contains descent.old.seen.items to }
    ensures limit { descent.new.seen.limit ≡ descent.old.seen.limit }
    ensures passed { descent.new.passed.items ≡ descent.old.passed.items }
    ensures finished { descent.new.finished.items ≡ descent.old.finished.items }
    ensures seen { OnOk result (descent.new.seen.items ≡ descent.old.seen.items ++ to ∷ []) }
    ensures small { OnOk result (length descent.new.seen.items ≤ descent.new.seen.limit) }
    ensures path { OnOk result (descent.new.path.items ≡ descent.old.path.items ++ to ∷ []) }
{
    descent.seen.add(to)?;
    descent.path.push(to)?;
    Ok(())
}

/// The last vertex of the path is finished.
fn go_up(descent: &mut Descent, vertex: usize) -> Result<(), AllocError>
    requires open { 0 < vec_len descent.old.path }
    requires last { vertex ≡ slice_index descent.old.path.items (vec_len descent.old.path - 1) }
    ensures seen { descent.new.seen ≡ descent.old.seen }
    ensures passed { descent.new.passed.items ≡ descent.old.passed.items }
    ensures path { OnOk result (descent.old.path.items ≡ descent.new.path.items ++ vertex ∷ []) }
    ensures finished { OnOk result (descent.new.finished.items ≡ descent.old.finished.items ++ vertex ∷ []) }
{
    descent.path.pop();
    descent.finished.push(vertex)?;
    Ok(())
}

/// Begins at a root, if it was not seen.
fn enter(descent: &mut Descent, graph: &Graph, root: usize) -> Result<(), AllocError>
    requires root { root < length graph.now }
    requires limit { descent.old.seen.limit ≡ length graph.now }
    requires empty { descent.old.path.items ≡ [] }
    requires descending { Descending graph.now descent.old.seen.items [] descent.old.passed.items
        descent.old.finished.items }
    ensures limit { descent.new.seen.limit ≡ length graph.now }
    ensures passed { descent.new.passed.items ≡ descent.old.passed.items }
    ensures has { OnOk result (Contains descent.new.seen.items root) }
    ensures keeps { OnOk result ((x : ℕ) → Contains descent.old.seen.items x → Contains descent.new.seen.items x) }
    ensures descending { OnOk result
        (Descending graph.now descent.new.seen.items descent.new.path.items descent.new.passed.items
        descent.new.finished.items) }
{
    if descent.seen.has(root) {
        return Ok(());
    }
    go_down(descent, root)?;
    Ok(())
}

/// Walks from a root and back to it, if it was not seen.
fn descend_from(descent: &mut Descent, graph: &Graph, root: usize) -> Result<(), AllocError>
    requires root { root < length graph.now }
    requires limit { descent.old.seen.limit ≡ length graph.now }
    requires passed { length descent.old.passed.items ≡ length graph.now }
    requires empty { descent.old.path.items ≡ [] }
    requires descending { Descending graph.now descent.old.seen.items [] descent.old.passed.items
        descent.old.finished.items }
    ensures limit { OnOk result (descent.new.seen.limit ≡ length graph.now) }
    ensures passed { OnOk result (length descent.new.passed.items ≡ length graph.now) }
    ensures empty { OnOk result (descent.new.path.items ≡ []) }
    ensures has { OnOk result (Contains descent.new.seen.items root) }
    ensures keeps { OnOk result ((x : ℕ) → Contains descent.old.seen.items x → Contains descent.new.seen.items x) }
    ensures descending { OnOk result
        (Descending graph.now descent.new.seen.items [] descent.new.passed.items descent.new.finished.items) }
{
    enter(descent, graph, root)?;
    while !descent.path.is_empty() {
        step(descent, graph)?;
    }
    Ok(())
}

/// Walks from each vertex.
fn descend_from_all(descent: &mut Descent, graph: &Graph) -> Result<(), AllocError>
    requires limit { descent.old.seen.limit ≡ length graph.now }
    requires passed { length descent.old.passed.items ≡ length graph.now }
    requires empty { descent.old.path.items ≡ [] }
    requires descending { Descending graph.now descent.old.seen.items [] descent.old.passed.items
        descent.old.finished.items }
    ensures { OnOk result (IsFinishingOrder graph.now descent.new.finished.items) }
{
    for root in 0..graph.len() {
        descend_from(descent, graph, root)?;
    }
    Ok(())
}

impl Descent {
    /// The descent that was nowhere, over `count` vertices.
    fn new(alloc: Global, count: usize) -> Result<Descent, AllocError>
        ensures limit { IfOk result (λ descent. descent.seen.limit ≡ count) }
        ensures seen { IfOk result (λ descent. descent.seen.items ≡ []) }
        ensures path { IfOk result (λ descent. descent.path.items ≡ []) }
        ensures passed { IfOk result (λ descent. descent.passed.items ≡ replicate count 0) }
        ensures finished { IfOk result (λ descent. descent.finished.items ≡ []) }
    {
        let seen = Visited::new(alloc, count)?;
        let passed = vec![in alloc; 0usize; count]?;
        Ok(Descent {
            seen,
            path: Vec::new(alloc),
            passed,
            finished: Vec::new(alloc),
        })
    }
}

/// The vertices in the order in which a descent in depth finishes them.
pub(crate) fn finishing_order(alloc: Global, graph: &Graph) -> Result<Vec<usize>, AllocError>
    ensures { IfOk result (λ order. IsFinishingOrder graph.now order.items) }
{
    let mut descent = Descent::new(alloc, graph.len())?;
    descend_from_all(&mut descent, graph)?;
    Ok(descent.finished)
}

/// Each vertex once, after its successors, but for those that reach it.
///
/// # Errors
/// Where memory runs out.
pub fn order(alloc: Global, graph: &Graph) -> Result<Vec<usize>, AllocError>
    ensures { IfOk result (λ order. IsPostorder graph.now order.items) }
{
    finishing_order(alloc, graph)
}
