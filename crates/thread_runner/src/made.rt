//! What a thread made outside the lock.

ghost use Rattle.std.specs.Prelude.{◌≡◌};

use crate::done_set::DoneSet;
use crate::front::{FrontRun, FrontStretch, run_from};
use crate::origin::Origin;
use crate::stretch::MOST;
use crate::tools::Tools;
use program::Program;
use std::alloc::{AllocError, Global};
use vm_state::frame::Frame;

/// The most instructions of a long run: they take some fifty times as long as its commit.
const LONGEST: u64 = 32_768;

/// What a thread made outside the lock.
#[derive(Drop)]
pub(crate) enum Made<O: Origin> {
    /// A stretch, if its first instruction was unshared: its commit tries one step more.
    Stretch(Option<FrontStretch<O>>),
    /// A run of more unshared instructions than a stretch has, and a copy of the frame where they ended.
    Run(FrontRun<O>, Frame),
}

/// A run with a copy of the frame where it ended, or a stretch where it is shorter.
fn made_of<O: Origin>(alloc: Global, run: FrontRun<O>) -> Result<Made<O>, AllocError> {
    if run.count() <= MOST {
        return Ok(Made::Stretch(Some(run.into_stretch())));
    }
    match run.end(alloc) {
        Ok(end) => Ok(Made::Run(run, end)),
        Err(error) => Err(error),
    }
}

/// Runs unshared instructions of a thread on its innermost frame, if it has one: as many as one commit counts at the
/// limit of a run, or more where it may be `long`.
///
/// # Errors
/// `AllocError` where memory is refused.
pub(crate) fn make<O: Origin>(
    alloc: Global,
    program: &Program,
    tools: &mut Tools<O>,
    thread: u32,
    front: Option<Frame>,
    done: &DoneSet,
    long: bool,
) -> Result<Made<O>, AllocError>
    requires { program.now ≡ O.program }
{
    let Some(frame) = front else {
        return Ok(Made::Stretch(None));
    };
    let most = if long { LONGEST } else { MOST + 1 };
    match run_from(alloc, program, tools, thread, frame, done, most) {
        Ok(Some(run)) => made_of(alloc, run),
        Ok(None) => Ok(Made::Stretch(None)),
        Err(error) => Err(error),
    }
}
