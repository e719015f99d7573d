//! Local instructions of one thread on its innermost frame alone.

ghost use Rattle.std.specs.Prelude.{◌≡◌, ◌<◌, ◌≤◌, ◌∷◌, [], Some, None, IfOk};
ghost use Rattle.vm_state.specs.Segments.{frames_of};
ghost use Rattle.semantics.specs.Steps.{Going};
ghost use Rattle.machine.specs.Effects.{going};
ghost use Rattle.thread_runner.specs.Fronts.{IsRunUpTo, LeadsOn};

use crate::done_set::DoneSet;
use crate::origin::Origin;
use crate::tools::Tools;
use crate::unshared::run_unshared;
use program::Program;
use std::alloc::{AllocError, Global};
use std::marker::{Model, PhantomData};
use vm_state::frame::{Frame, FrameList, Segment};
use vm_state::initialization::Frames;

/// Local instructions that one thread did on its innermost frame and on the calls that it made from there. Contracts
/// see that frame, the classes that it asked for, how many instructions it did, and the frames in the place of that
/// one.
pub(crate) struct FrontRun<O: Origin> {
    from: Frame,
    asked: Vec<u32>,
    count: u64,
    to: Segment,
    of: PhantomData<O>,
}

impl<O: Origin> Model for FrontRun<O> {
    ghost use Rattle.std.specs.Prelude.{◌≡◌, ◌<◌};
    ghost use Rattle.vm_state.specs.Segments.{frames_of};
    ghost use Rattle.thread_runner.specs.Fronts.{FrontReach, LeadsOn};

    ghost Value = { FrontReach };

    ghost view = { λ s. record { from = s.from; asked = s.asked.items; count = s.count; to = frames_of s.to } };

    // Local steps, as many as it counts, lead on from its frame.
    ghost invariant = { λ s. (0 < s.count) × LeadsOn O.program
        (record { from = s.from; asked = s.asked.items; count = s.count; to = frames_of s.to }) };
}

// By hand, since a derived one is proved anew wherever a run is let go.
impl<O: Origin> Drop for FrontRun<O> {
    fn drop(self) {
        let FrontRun {
            from: _,
            asked: _,
            count: _,
            to: _,
            of: _,
        } = self;
    }
}

/// A run on a front after which one step more is tried: of 1,023 instructions at most.
#[derive(Drop)]
pub struct FrontStretch<O: Origin> {
    run: FrontRun<O>,
}

impl<O: Origin> Model for FrontStretch<O> {
    ghost use Rattle.std.specs.Prelude.{◌≤◌};
    ghost use Rattle.thread_runner.specs.Fronts.{FrontReach};

    ghost Value = { FrontReach };

    ghost view = { λ s. s.run };

    ghost invariant = { λ s. s.run.count ≤ 1023 };
}

/// The frames of a thread that has this one alone.
fn alone(alloc: Global, thread: u32, frame: Frame) -> Frames
    ensures { result ≡ record {
      thread = thread;
      segment = Some (record { innermost = frame; callers = [] });
      levels = None;
    } }
{
    Frames {
        thread,
        segment: Some(Segment {
            innermost: frame,
            callers: FrameList::none(alloc),
        }),
        levels: None,
    }
}

/// Runs unshared instructions of a thread that has this frame alone.
fn run_front<O: Origin>(
    alloc: Global,
    program: &Program,
    tools: &mut Tools<O>,
    front: Frame,
    start: Frames,
    done: &DoneSet,
    most: u64,
) -> Result<Option<FrontRun<O>>, AllocError>
    requires program { program.now ≡ O.program }
    requires start { going start ≡ Going (front ∷ []) [] }
    requires some { 0 < most }
    ensures { IfOk result (λ made. IsRunUpTo O.program done.now most front made) }
{
    let mut frames = start;
    match run_unshared(alloc, program, tools, done, &mut frames, most) {
        Ok((count, asked)) => {
            if count == 0 {
                return Ok(None);
            }
            let Frames {
                thread: _,
                segment,
                levels: _,
            } = frames;
            let Some(to) = segment else { unreachable!() };
            Ok(Some(FrontRun {
                from: front,
                asked,
                count,
                to,
                of: PhantomData,
            }))
        }
        Err(error) => Err(error),
    }
}

/// Runs at most `most` unshared instructions of a thread on its innermost frame, over classes that it takes to be
/// initialized, if the first is one. It ends earlier only where the next one is not unshared or leaves that frame.
///
/// # Errors
/// `AllocError` where memory is refused.
pub(crate) fn run_from<O: Origin>(
    alloc: Global,
    program: &Program,
    tools: &mut Tools<O>,
    thread: u32,
    front: Frame,
    done: &DoneSet,
    most: u64,
) -> Result<Option<FrontRun<O>>, AllocError>
    requires program { program.now ≡ O.program }
    requires some { 0 < most }
    ensures { IfOk result (λ made. IsRunUpTo O.program done.now most front made) }
{
    match front.copy(alloc) {
        Ok(copy) => run_front(
            alloc,
            program,
            tools,
            front,
            alone(alloc, thread, copy),
            done,
            most,
        ),
        Err(error) => Err(error),
    }
}

impl<O: Origin> FrontRun<O> {
    /// The frame that it took.
    pub(crate) fn from(&self) -> &Frame
        ensures { result.now ≡ self.now.from }
    {
        &self.from
    }

    /// The classes that it asked for.
    pub(crate) fn asked(&self) -> &[u32]
        ensures { result.now ≡ self.now.asked }
    {
        self.asked.as_slice()
    }

    /// How many instructions it did.
    pub(crate) fn count(&self) -> u64
        ensures is { result ≡ self.now.count }
        ensures some { 0 < result }
    {
        self.count
    }

    /// A copy of the innermost frame where it ended.
    ///
    /// # Errors
    /// `AllocError` where memory is refused.
    pub(crate) fn end(&self, alloc: Global) -> Result<Frame, AllocError> {
        self.to.innermost.copy(alloc)
    }

    /// The frames in the place of the one that it took.
    pub(crate) fn into_top(self) -> Segment
        ensures is { frames_of result ≡ self.to }
        ensures leads { LeadsOn O.program self }
    {
        let FrontRun {
            from: _,
            asked: _,
            count: _,
            to,
            of: _,
        } = self;
        to
    }

    /// As a stretch.
    pub(crate) fn into_stretch(self) -> FrontStretch<O>
        requires { self.count ≤ 1023 }
        ensures { result ≡ self }
    {
        FrontStretch { run: self }
    }
}

impl<O: Origin> FrontStretch<O> {
    /// As a run.
    pub(crate) fn into_run(self) -> FrontRun<O>
        ensures is { result ≡ self }
        ensures few { result.count ≤ 1023 }
    {
        self.run
    }
}
