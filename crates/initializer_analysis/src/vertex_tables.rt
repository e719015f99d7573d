//! Tables by component, read by vertex.

ghost use Rattle.std.specs.Prelude.{◌≡◌, ◌<◌, length, map, slice_index_or, IfOk};
ghost use Rattle.std.specs.List.{All};

use graph::Components;
use std::alloc::{AllocError, Global};

/// What a table by components has for each vertex.
pub(crate) fn by_vertex<T: Copy + Drop>(
    alloc: Global,
    components: &Components,
    table: &[T],
) -> Result<Vec<T>, AllocError>
    requires { All (λ n. n < length table.now) components.now.numbers }
    ensures { IfOk result (λ row. (d : T) → row.items
        ≡ map (λ n. slice_index_or table.now n d) components.now.numbers) }
{
    let mut row = Vec::with_capacity(alloc, components.len())?;
    for vertex in 0..components.len() {
        row.push(table[components.number(vertex)])?;
    }
    Ok(row)
}
