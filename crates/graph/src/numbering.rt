//! Numbers of strongly connected components.

ghost use Rattle.std.specs.Prelude.{◌≡◌, ℕ, ◌<◌, ◌≤◌, [], length, OnOk};
ghost use Rattle.std.specs.List.{All, Contains};
ghost use Rattle.graph.specs.Seen.{AreDistinct};
ghost use Rattle.graph.specs.steps.Finishing.{IsTurnedOrder};
ghost use Rattle.graph.specs.steps.Numbering.{Gathering, Numbered};

use crate::graph::Graph;
use crate::search::visit;
use crate::visited::Visited;
use std::alloc::AllocError;

/// Gives a root, and all that it reaches and that has no number yet, one number: how many had one before.
fn number_component(
    back: &Graph,
    root: usize,
    seen: &mut Visited,
    numbers: &mut [usize],
) -> Result<(), AllocError>
    requires root { root < length back.now }
    requires limit { seen.old.limit ≡ length back.now }
    requires within { All (λ v. v < length back.now) seen.old.items }
    requires numbers { length numbers.old ≡ length back.now }
    ensures limit { seen.new.limit ≡ seen.old.limit }
    ensures distinct { OnOk result (AreDistinct seen.new.items) }
    ensures few { OnOk result (length seen.new.items ≤ length back.now) }
    ensures gathers { OnOk result
        (Gathering back.now root seen.old.items numbers.old seen.new.items numbers.new (length seen.new.items)) }
{
    let first = seen.len();
    seen.add(root)?;
    let mut next = first;
    while next < seen.len() {
        let vertex = seen.at(next);
        numbers[vertex] = first;
        visit(back.successors(vertex), seen)?;
        next += 1;
    }
    Ok(())
}

/// Gives all vertices numbers, from the last of an order to the first.
pub(crate) fn number_all(
    back: &Graph,
    order: &[usize],
    seen: &mut Visited,
    numbers: &mut [usize],
) -> Result<(), AllocError>
    requires order { IsTurnedOrder back.now order.now }
    requires limit { seen.old.limit ≡ length back.now }
    requires empty { seen.old.items ≡ [] }
    requires numbers { length numbers.old ≡ length back.now }
    ensures numbered { OnOk result (Numbered back.now seen.new.items numbers.new) }
    ensures all { OnOk result ((v : ℕ) → v < length back.now → Contains seen.new.items v) }
{
    let mut place = order.len();
    while place > 0 {
        place -= 1;
        number_component(back, order[place], seen, numbers)?;
    }
    Ok(())
}
