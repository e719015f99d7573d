//! One step of one thread: an instruction, or a part of the initialization procedure (JVMS 5.5).

ghost use Rattle.std.specs.Prelude.{◌≡◌, ◌∷◌, List, IfOk, OnOk, OnErr, Some, None, IsSome};
ghost use Rattle.vm_state.specs.declared.initialization.Level.{Level};
ghost use Rattle.vm_state.specs.Output.{Print};
ghost use Rattle.vm_state.specs.Shares.{shared_of, SharesTheSame};
ghost use Rattle.vm_state.specs.Stacks.{segment_of, levels_of};
ghost use Rattle.vm_state.specs.declared.value.Maker.{Maker};
ghost use Rattle.semantics.specs.Rows.{run_row};
ghost use Rattle.semantics.specs.Steps.{Going, standing, finishes, initializes, fails, step_thread};
ghost use Rattle.machine.specs.Failures.{failure};
ghost use Rattle.machine.specs.Linked.{program_of, initializer_frame};
ghost use Rattle.init_engine.specs.steps.Progress.{HasBegun, HasPrinted, PrintsNothing, Stands, Steps, StaysPut};
ghost use Rattle.init_engine.specs.steps.Progress.{left_by_step};

use machine::entering::initializer_frame;
use machine::failing::fail;
use machine::{Effect, effect};
use program::Program;
use std::alloc::{AllocError, Global};
use vm_state::classes::{ClassState, Usability};
use vm_state::ends::End;
use vm_state::initialization::{Frames, Initialization, ParentsLeft};
use vm_state::output::Output;
use vm_state::shared::Shared;
use vm_state::text::Text;
use vm_state::value::Name;

/// What a step of a thread did.
#[derive(Drop)]
pub enum Progress {
    Moved,
    Printed(Text),
    /// The step ended the thread.
    Ended(End),
    /// There is no step.
    Waits,
}

/// How a thread that stands so has ended, if it has.
fn end_of(frames: &Frames) -> Option<End>
    ensures { Stands result (standing (segment_of frames.now) (levels_of frames.now)) frames.now }
{
    if frames.segment.is_none() && frames.levels.is_none() {
        return Some(End::Returned);
    }
    None
}

/// Begins the initialization of a class by a thread (step 6). Where memory is refused nothing changes.
fn begin(
    alloc: Global,
    program: &Program,
    frames: &mut Frames,
    shared: &mut Shared,
    class: u32,
) -> Result<(), AllocError>
    ensures thread { frames.new.thread ≡ frames.old.thread }
    ensures begun { OnOk result (HasBegun program.now class frames.old shared.old frames.new shared.new) }
    ensures err { OnErr result ((frames.new ≡ frames.old) × (SharesTheSame shared.old shared.new)) }
{
    let statics = program.statics(class);
    shared.keep(alloc, class, statics.len())?;
    let left = ParentsLeft::of(alloc, program.init_order(class))?;
    let thread = frames.thread;
    frames.enter(
        alloc,
        Initialization {
            class,
            left,
            begun: false,
            pending: None,
        },
    )?;
    shared.begin(class, thread, statics);
    Ok(())
}

/// The step in which a thread begins the initialization of a class.
fn step_begin(
    alloc: Global,
    program: &Program,
    frames: &mut Frames,
    shared: &mut Shared,
    class: u32,
) -> Result<Progress, AllocError>
    ensures answer { IfOk result (λ r. r ≡ Progress.Moved) }
    ensures thread { frames.new.thread ≡ frames.old.thread }
    ensures begun { OnOk result (HasBegun program.now class frames.old shared.old frames.new shared.new) }
    ensures err { OnErr result ((frames.new ≡ frames.old) × (SharesTheSame shared.old shared.new)) }
    ensures silent { IfOk result PrintsNothing }
{
    begin(alloc, program, frames, shared, class)?;
    Ok(Progress::Moved)
}

/// An instruction, or the begin that it needs, of a thread on top of whose stack a frame stands. What it prints comes
/// behind what was printed before.
#[tactic(auto, using(crate::proofs::FrameSteps::frame_steps))]
fn step_frame(
    alloc: Global,
    program: &Program,
    frames: &mut Frames,
    shared: &mut Shared,
    printed: &mut Output,
) -> Result<Progress, AllocError>
    requires { IsSome frames.old.segment }
    ensures thread { frames.new.thread ≡ frames.old.thread }
    ensures steps { IfOk result (λ r. Steps (program_of program.now) frames.old shared.old r frames.new shared.new) }
    ensures stays { IfOk result (λ r. StaysPut r frames.old frames.new shared.old shared.new) }
    ensures err { OnErr result ((frames.new ≡ frames.old) × (SharesTheSame shared.old shared.new)) }
    ensures printed { IfOk result (λ r. HasPrinted r frames.old.thread printed.old printed.new) }
    ensures kept { OnErr result (printed.new ≡ printed.old) }
{
    match effect(alloc, program, frames, shared, printed)? {
        Effect::Next | Effect::Raise => Ok(Progress::Moved),
        Effect::Needs(class) => {
            begin(alloc, program, frames, shared, class)?;
            Ok(Progress::Moved)
        }
        Effect::Wait => Ok(Progress::Waits),
        Effect::Print(text) => Ok(Progress::Printed(text)),
        Effect::Halt(end) => Ok(Progress::Ended(end)),
    }
}

/// Finish (step 10): the class of the highest initialization is initialized, and its initialization goes from the
/// stack.
#[tactic(auto, unfolding(semantics::specs::Steps::step_thread))]
fn finish(
    alloc: Global,
    frames: &mut Frames,
    shared: &mut Shared,
    class: u32,
) -> Result<Progress, AllocError>
    ensures thread { frames.new.thread ≡ frames.old.thread }
    ensures finishes { IfOk result (λ r. (l : Level) (ls : List Level) (p : List Print) → levels_of frames.old ≡ l ∷ ls
        → left_by_step r frames.old.thread frames.new (shared_of shared.new p)
        ≡ Some (finishes (shared_of shared.old p) class l.under ls)) }
    ensures stays { IfOk result (λ r. StaysPut r frames.old frames.new shared.old shared.new) }
    ensures err { OnErr result ((frames.new ≡ frames.old) × (SharesTheSame shared.old shared.new)) }
    ensures silent { IfOk result PrintsNothing }
{
    shared.keep(alloc, class, 0)?;
    shared.replace_state(class, ClassState::Initialized);
    frames.leave();
    match end_of(frames) {
        Some(end) => Ok(Progress::Ended(end)),
        None => Ok(Progress::Moved),
    }
}

/// Fail (steps 7, 10 and 11): the class of the highest initialization is erroneous, its initialization goes from the
/// stack, and an exception is raised below. The cause is the exception that its class initialization method ended by,
/// or none where a parent's initialization failed.
fn step_fail(
    alloc: Global,
    program: &Program,
    frames: &mut Frames,
    shared: &mut Shared,
    class: u32,
    cause: Option<Name>,
) -> Result<Progress, AllocError>
    requires { IsSome frames.old.levels }
    ensures thread { frames.new.thread ≡ frames.old.thread }
    ensures fails { IfOk result (λ r. (l : Level) (ls : List Level) (p : List Print) → levels_of frames.old ≡ l ∷ ls
        → fails (program_of program.now) class l.under ls
        (run_row frames.old.thread (Maker.Class class) (shared_of shared.old p) (failure program.now cause))
        ≡ left_by_step r frames.old.thread frames.new (shared_of shared.new p)) }
    ensures stays { IfOk result (λ r. StaysPut r frames.old frames.new shared.old shared.new) }
    ensures err { OnErr result ((frames.new ≡ frames.old) × (SharesTheSame shared.old shared.new)) }
    ensures silent { IfOk result PrintsNothing }
{
    match fail(alloc, program, frames, shared, class, cause) {
        Ok(Some(end)) => Ok(Progress::Ended(end)),
        Ok(None) => Ok(Progress::Moved),
        Err(error) => Err(error),
    }
}

/// Advance to the class initialization method (step 9), or finish where there is none.
#[tactic(auto, unfolding(semantics::specs::Steps::step_thread))]
fn initialize(
    alloc: Global,
    program: &Program,
    frames: &mut Frames,
    shared: &mut Shared,
    class: u32,
) -> Result<Progress, AllocError>
    requires levels { IsSome frames.old.levels }
    requires segment { frames.old.segment ≡ None }
    ensures thread { frames.new.thread ≡ frames.old.thread }
    ensures initializes { IfOk result (λ r. (l : Level) (ls : List Level) (p : List Print) → levels_of frames.old
        ≡ l ∷ ls → l.initialization.class ≡ class → left_by_step r frames.old.thread frames.new (shared_of shared.new p)
        ≡ Some (initializes (shared_of shared.old p) l.initialization l.under ls
        (initializer_frame program.now class))) }
    ensures stays { IfOk result (λ r. StaysPut r frames.old frames.new shared.old shared.new) }
    ensures err { OnErr result ((frames.new ≡ frames.old) × (SharesTheSame shared.old shared.new)) }
    ensures silent { IfOk result PrintsNothing }
{
    match initializer_frame(alloc, program, class)? {
        Some(frame) => {
            frames.begin_initializer(alloc, frame);
            Ok(Progress::Moved)
        }
        None => finish(alloc, frames, shared, class),
    }
}

/// What the highest initialization does next, with no frame above it.
#[tactic(auto, unfolding(semantics::specs::Steps::step_thread))]
fn step_initialization(
    alloc: Global,
    program: &Program,
    frames: &mut Frames,
    shared: &mut Shared,
) -> Result<Progress, AllocError>
    requires levels { IsSome frames.old.levels }
    requires segment { frames.old.segment ≡ None }
    ensures thread { frames.new.thread ≡ frames.old.thread }
    ensures steps { IfOk result (λ r. Steps (program_of program.now) frames.old shared.old r frames.new shared.new) }
    ensures stays { IfOk result (λ r. StaysPut r frames.old frames.new shared.old shared.new) }
    ensures err { OnErr result ((frames.new ≡ frames.old) × (SharesTheSame shared.old shared.new)) }
    ensures silent { IfOk result PrintsNothing }
{
    let Some(levels) = &frames.levels else {
        unreachable!()
    };
    let level = &levels.highest;
    let class = level.initialization.class;
    if let Some(exception) = level.initialization.pending {
        return step_fail(alloc, program, frames, shared, class, Some(exception));
    }
    match level.initialization.left.first() {
        Some(parent) => match shared.state(parent).usability(frames.thread) {
            Usability::Ready => {
                frames.take_parent();
                Ok(Progress::Moved)
            }
            Usability::Fresh => step_begin(alloc, program, frames, shared, parent),
            Usability::Busy => Ok(Progress::Waits),
            Usability::Broken => step_fail(alloc, program, frames, shared, class, None),
        },
        None => {
            if level.initialization.begun {
                finish(alloc, frames, shared, class)
            } else {
                initialize(alloc, program, frames, shared, class)
            }
        }
    }
}

/// One step of a thread (JVMS 5.5). Where there is none nothing changes. What it prints comes behind what was printed
/// before.
///
/// # Errors
/// `AllocError` where memory is refused; nothing has changed then.
#[tactic(auto, unfolding(semantics::specs::Steps::step_thread))]
pub fn step_thread(
    alloc: Global,
    program: &Program,
    frames: &mut Frames,
    shared: &mut Shared,
    printed: &mut Output,
) -> Result<Progress, AllocError>
    ensures thread { frames.new.thread ≡ frames.old.thread }
    ensures steps { IfOk result (λ r. Steps (program_of program.now) frames.old shared.old r frames.new shared.new) }
    ensures stays { IfOk result (λ r. StaysPut r frames.old frames.new shared.old shared.new) }
    ensures err { OnErr result ((frames.new ≡ frames.old) × (SharesTheSame shared.old shared.new)) }
    ensures printed { IfOk result (λ r. HasPrinted r frames.old.thread printed.old printed.new) }
    ensures kept { OnErr result (printed.new ≡ printed.old) }
{
    if frames.segment.is_some() {
        return step_frame(alloc, program, frames, shared, printed);
    }
    if frames.levels.is_some() {
        return step_initialization(alloc, program, frames, shared);
    }
    Ok(Progress::Waits)
}
