//! Stretches of local instructions, each by itself.

ghost use Rattle.std.specs.Prelude.{◌≡◌, ◌⊎◌, None, IfOk};
ghost use Rattle.machine.specs.Effects.{going};
ghost use Rattle.thread_runner.specs.Fronts.{IsFrontRun};
ghost use Rattle.thread_runner.specs.Local.{local_step};
ghost use Rattle.thread_runner.specs.Stretches.{Leads};

use crate::done_set::DoneSet;
use crate::front::{FrontStretch, run_from};
use crate::origin::Origin;
use crate::stretch::{MOST, Stretch, stretch_of};
use crate::tools::Tools;
use program::Program;
use std::alloc::{AllocError, Global};
use vm_state::frame::Frame;
use vm_state::initialization::Frames;

/// Runs up to 1,023 local instructions of a thread on these frames, over classes that it takes to be initialized.
///
/// # Errors
/// `AllocError` where memory is refused.
pub fn stretch<O: Origin>(
    alloc: Global,
    program: &Program,
    frames: Frames,
    done: &DoneSet,
) -> Result<Stretch<O>, AllocError>
    requires { program.now ≡ O.program }
    ensures from { IfOk result (λ s. (s.from ≡ frames) × (s.done ≡ done.now)) }
    // It ends only where there were 1,023, or where the next instruction is not local.
    ensures ends { IfOk result (λ s. (s.count ≡ 1023) ⊎ (local_step O.program s.done (going s.to) ≡ None)) }
    // In each world in which the thread has these frames and the classes are initialized, these steps lead to that
    // world with the frames where it ended.
    ensures leads { IfOk result (λ s. Leads O.program s) }
{
    match frames.copy(alloc) {
        Ok(copy) => match done.copy(alloc) {
            Ok(done) => stretch_of(alloc, program, frames, copy, done),
            Err(error) => Err(error),
        },
        Err(error) => Err(error),
    }
}

/// Runs up to 1,023 unshared instructions of a thread on its innermost frame, over classes that it takes to be
/// initialized, if the first is one. It ends earlier only where the next one is not unshared or leaves that frame.
///
/// # Errors
/// `AllocError` where memory is refused.
pub fn front_stretch<O: Origin>(
    alloc: Global,
    program: &Program,
    thread: u32,
    front: Frame,
    done: &DoneSet,
) -> Result<Option<FrontStretch<O>>, AllocError>
    requires { program.now ≡ O.program }
    ensures { IfOk result (λ made. IsFrontRun O.program done.now front made) }
{
    let mut tools = Tools::<O>::new(alloc);
    match run_from(alloc, program, &mut tools, thread, front, done, MOST) {
        Ok(Some(run)) => Ok(Some(run.into_stretch())),
        Ok(None) => Ok(None),
        Err(error) => Err(error),
    }
}
