//! Unshared instructions of a thread in a row.

ghost use Rattle.std.specs.Prelude.{◌≡◌, ◌≤◌, ◌⊎◌, List, Bool, Some, None, IfOk};
ghost use Rattle.machine.specs.Effects.{going};
ghost use Rattle.thread_runner.specs.Fronts.{AreMembers};
ghost use Rattle.thread_runner.specs.Unshared.{unshared_step, unshared_steps};

use crate::done_set::DoneSet;
use crate::origin::Origin;
use crate::tools::Tools;
use crate::unshared_step::UnsharedStep;
use program::Program;
use std::alloc::{AllocError, Global};
use vm_state::initialization::Frames;

/// Does at most `most` instructions of a thread, until the next one shares more than which classes are initialized. It
/// answers how many, and the classes that they asked for.
///
/// # Errors
/// `AllocError` where memory is refused.
pub(crate) fn run_unshared<O: Origin>(
    alloc: Global,
    program: &Program,
    tools: &mut Tools<O>,
    done: &DoneSet,
    frames: &mut Frames,
    most: u64,
) -> Result<(u64, Vec<u32>), AllocError>
    requires { program.now ≡ O.program }
    ensures steps { IfOk result (λ ran. unshared_steps program.now done.now ran.0 (going frames.old)
        ≡ Some (going frames.new)) }
    ensures wide { IfOk result (λ ran. (more : List Bool) → AreMembers ran.1.items more
        → unshared_steps program.now more ran.0 (going frames.old) ≡ Some (going frames.new)) }
    ensures most { IfOk result (λ ran. ran.0 ≤ most) }
    ensures ends { IfOk result (λ ran. (ran.0 ≡ most)
        ⊎ (unshared_step program.now done.now (going frames.new) ≡ None)) }
    ensures thread { frames.new.thread ≡ frames.old.thread }
{
    let mut asked = Vec::new(alloc);
    let mut count = 0;
    while count < most {
        count += tools.walk(alloc, program, frames, most - count);
        if count == most {
            break;
        }
        match tools.step(alloc, program, asked.as_slice(), frames) {
            Ok(UnsharedStep::Done) => count += 1,
            Ok(UnsharedStep::Lacks(class)) => {
                if !done.has(class) {
                    return Ok((count, asked));
                }
                match asked.push(class) {
                    Ok(()) => {}
                    Err(_) => return Err(AllocError),
                }
            }
            Ok(UnsharedStep::Stops) => return Ok((count, asked)),
            Err(error) => return Err(error),
        }
    }
    Ok((count, asked))
}
