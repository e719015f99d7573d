//! What the instructions of a body may do.

ghost use Rattle.std.specs.Prelude.{◌≡◌, ◌++◌, IfOk, OnOk};
ghost use Rattle.use_graph.specs.steps.Deeds.{deeds_in, deeds_for};

use crate::code::{Deed, deed_of};
use bytecode::Placed;
use program::Program;
use program::class::Implementation;
use std::alloc::{AllocError, Global};

/// Adds what each of some instructions of a method may do.
fn add_deeds(
    program: &Program,
    class: u32,
    method: u16,
    items: &[Placed],
    deeds: &mut Vec<Deed>,
) -> Result<(), AllocError>
    ensures { OnOk result
        (deeds.new.items ≡ deeds.old.items ++ deeds_for program.now class method items.now) }
{
    for item in items {
        deeds.push(deed_of(program, class, method, item))?;
    }
    Ok(())
}

/// What each instruction of a method may do, in the order of its body: nothing where it has no code.
pub(crate) fn deeds_of(
    alloc: Global,
    program: &Program,
    class: u32,
    method: u16,
) -> Result<Vec<Deed>, AllocError>
    ensures { IfOk result (λ deeds. deeds.items ≡ deeds_in program.now class method) }
{
    let mut deeds = Vec::new(alloc);
    match program.implementation(class, method) {
        Some(Implementation::Code(code)) => {
            add_deeds(program, class, method, code.body.instructions(), &mut deeds)?;
            Ok(deeds)
        }
        _ => Ok(deeds),
    }
}
