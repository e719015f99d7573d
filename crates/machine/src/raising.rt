//! Exceptions that instructions raise (JVMS 2.10), over any store.

ghost use Rattle.std.specs.Prelude.{◌≡◌, List, Err};
ghost use Rattle.vm_state.specs.declared.frame.Frame.{Frame};
ghost use Rattle.vm_state.specs.Output.{Print};
ghost use Rattle.machine.specs.RowParts.{raises};
ghost use Rattle.machine.specs.Table.{local_row};
ghost use Rattle.machine.specs.Accesses.{Gives, KeptBy};

use crate::kinds::{Actor, Conclusion, Stop};
use crate::store::Store;
use built_in::class_id::{BuiltIn, ClassId};
use frame_instructions::trap::Trap;
use std::alloc::Global;
use vm_state::ends::FaultKind;
use vm_state::object::Slots;

/// Raises a new exception of a built-in class.
///
/// # Errors
/// The store's reason. The store is as it was; where memory is refused, what definitions see of it.
pub fn raise<S: Store>(
    alloc: Global,
    by: Actor,
    store: &mut S,
    class: BuiltIn,
) -> Result<Conclusion, Stop>
    ensures gives { (p : List Print) (f : Frame)
        → Gives S.stopped (S.run by (S.state store.old p)) (S.run by (S.state store.new p))
        (raises class) f result }
    ensures same { KeptBy S.state result store.old store.new }
{
    let class = ClassId::BuiltIn(class);
    let exception = store.make(alloc, by, class, Slots::none(alloc))?;
    Ok(Conclusion::Raises(exception, class))
}

/// The end by a trap of an instruction that touches its own frame alone.
///
/// # Errors
/// The store's reason. The store is as it was; where memory is refused, what definitions see of it.
pub fn trap<S: Store>(
    alloc: Global,
    by: Actor,
    store: &mut S,
    trap: Trap,
) -> Result<Conclusion, Stop>
    ensures gives { (p : List Print) (f : Frame)
        → Gives S.stopped (S.run by (S.state store.old p)) (S.run by (S.state store.new p))
        (local_row (Err trap)) f result }
    ensures same { KeptBy S.state result store.old store.new }
{
    match trap {
        Trap::Fault => Ok(Conclusion::Halts(FaultKind::Fault)),
        Trap::Raise(class) => raise(alloc, by, store, class),
    }
}
