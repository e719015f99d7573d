//! Which interfaces are initialized before a class (JVMS 5.5, step 7).

ghost use Rattle.std.specs.Prelude.{◌≡◌, ◌<◌, ◌≤◌, ◌^◌, false, ◌++◌, length, IfOk, OnOk, slice_index_or};
ghost use Rattle.std.specs.List.{All, filter};
ghost use Rattle.hierarchy.specs.Initialization.{is_initialized_first};
ghost use Rattle.hierarchy.specs.steps.InterfaceOrders.{TellFirst};

use graph::Visited;
use loading::family::Family;
use std::alloc::{AllocError, Global};

/// By class: whether it declares a method that is neither abstract nor static.
pub(crate) fn initialized_first(alloc: Global, family: &Family) -> Result<Vec<bool>, AllocError>
    ensures { IfOk result (λ flags. TellFirst family.now flags.items) }
{
    let count = family.classes().len();
    let mut flags = Vec::with_capacity(alloc, count)?;
    for class in 0..count {
        flags.push(is_initialized_first(family, class as u32))?;
    }
    Ok(flags)
}

fn is_initialized_first(family: &Family, class: u32) -> bool
    ensures { result ≡ is_initialized_first family.now class }
{
    match family.file(class) {
        Some(file) => file.declares_default(),
        None => false,
    }
}

/// Adds those members that are flagged.
pub(crate) fn add_flagged(
    seen: &Visited,
    flags: &[bool],
    numbers: &mut Vec<u32>,
) -> Result<(), AllocError>
    requires limit { seen.now.limit ≡ length flags.now }
    requires few { length flags.now ≤ 2 ^ 32 }
    requires within { All (λ c. c < length flags.now) numbers.old.items }
    ensures added { OnOk result (numbers.new.items
        ≡ numbers.old.items ++ filter (λ c. slice_index_or flags.now c false) seen.now.items) }
    ensures within { OnOk result (All (λ c. c < length flags.now) numbers.new.items) }
{
    for index in 0..seen.len() {
        let class = seen.at(index);
        if flags[class] {
            numbers.push(class as u32)?;
        }
    }
    Ok(())
}
