//! A class's initializer, from its ConstantValues to its region.

ghost use Rattle.std.specs.Prelude.{◌≡◌, IfOk};
ghost use Rattle.vm_state.specs.Segments.{frames_of};
ghost use Rattle.semantics.specs.Alone.{body};
ghost use Rattle.semantics.specs.Settling.{constant_region};
ghost use Rattle.machine.specs.Linked.{program_of};
ghost use Rattle.region_shape.specs.Regions.{region_of, environment_of};
ghost use Rattle.evaluator.specs.Outcomes.{IsEvaluation, IsOutcome, IsUnbarred};
ghost use Rattle.evaluator.specs.Settleable.{IsSettleable, LeavesWhole};
ghost use Rattle.evaluator.specs.steps.Steps.{IsEnd};

use crate::build::BuildStore;
use crate::course_runner::CourseRunner;
use crate::outcome::{Evaluation, Halt, Outcome, Refusal};
use crate::step::{Initializer, Progress, take_step};
use machine::entering::initializer_frame;
use program::Program;
use region_shape::regions::{Region, Regions};
use region_shape::{show_from_file, show_linked};
use std::alloc::{AllocError, Global};
use vm_state::classes::Fields;
use vm_state::frame::{FrameList, Segment};
use vm_state::heap::Pool;
use vm_state::spares::Spares;

/// A class's region before its initializer runs: each static field is zero, null or its ConstantValue, and no object
/// was made (JVMS 5.5, step 6).
fn constant_region(alloc: Global, program: &Program, class: u32) -> Result<Region, AllocError>
    ensures { IfOk result (λ region. region_of region ≡ constant_region (program_of program.now) class) }
{
    let statics = program.statics(class);
    let mut fields = Fields::zeros(alloc, statics)?;
    fields.set_constants(statics);
    Ok(Region {
        fields,
        objects: Pool::new(alloc),
    })
}

/// Runs the frames of an initializer to their end, as long as their cost is within a budget: many instructions in a row
/// where they touch no class but its own, and by itself what is left of them.
///
/// # Errors
/// `AllocError` where memory is refused.
fn run_frames<'a>(
    alloc: Global,
    given: Initializer<'a>,
    store: &mut BuildStore<'a>,
    segment: &mut Segment,
    budget: u64,
) -> Result<Option<Halt>, AllocError>
    ensures { IfOk result (λ halt. IsEnd (program_of given.entry.program.now) (environment_of given.entry.regions.now)
        given.entry.class (frames_of segment.old) (region_of store.old.own) budget halt (region_of store.new.own)) }
{
    let mut courses = CourseRunner::new(alloc);
    let mut spares = Spares::none(alloc);
    let mut left = budget;
    while left > 0 {
        let done = budget - left;
        let ahead = courses.run(alloc, given, &mut store.own, segment, done, left - 1)?;
        let most = left - 1 - ahead;
        match take_step(alloc, &mut spares, given, store, segment, most)? {
            Progress::On => left = most.saturating_sub(store.made),
            Progress::Over => return Ok(None),
            Progress::Stopped(halt) => return Ok(Some(halt)),
        }
    }
    Ok(Some(Halt::Refused(Refusal::OverBudget)))
}

/// Runs a class's initializer, if it has one.
///
/// # Errors
/// `AllocError` where memory is refused.
fn run_initializer<'a>(
    alloc: Global,
    given: Initializer<'a>,
    store: &mut BuildStore<'a>,
    budget: u64,
) -> Result<Option<Halt>, AllocError>
    ensures { IfOk result (λ halt. IsEnd (program_of given.entry.program.now) (environment_of given.entry.regions.now)
        given.entry.class (body ((program_of given.entry.program.now).initializer given.entry.class))
        (region_of store.old.own) budget halt (region_of store.new.own)) }
{
    match initializer_frame(alloc, given.program, given.class)? {
        Some(innermost) => {
            let mut segment = Segment {
                innermost,
                callers: FrameList::none(alloc),
            };
            run_frames(alloc, given, store, &mut segment, budget)
        }
        None => Ok(None),
    }
}

/// Sets a class's ConstantValues and runs its class initialization method alone, with the regions of other classes at
/// hand. Each instruction costs 1, and 1 more for each element of an array that it makes.
///
/// # Errors
/// `AllocError` where memory is refused.
pub fn evaluate(
    alloc: Global,
    program: &Program,
    regions: &Regions,
    class: u32,
    budget: u64,
) -> Result<Evaluation, AllocError>
    ensures { IfOk result (λ evaluation. IsEvaluation (program_of program.now) (environment_of regions.now) class budget
        evaluation) }
{
    let own = constant_region(alloc, program, class)?;
    let given = Initializer {
        program,
        regions,
        class,
    };
    let mut store = BuildStore {
        program,
        regions,
        class,
        own,
        most: 0,
        made: 0,
    };
    match run_initializer(alloc, given, &mut store, budget) {
        Ok(None) => Ok(Evaluation::Settled(store.own)),
        Ok(Some(halt)) => Ok(Evaluation::Stopped(halt)),
        Err(error) => Err(error),
    }
}

/// Settles a class at build time whose code bars nothing, with the regions of other classes at hand. So it is of each
/// class whose code bears no mark, where its uses have whole regions (`laws::settleable_are_unbarred`); and then the
/// region that it leaves is whole too.
///
/// # Errors
/// `AllocError` where memory is refused.
pub fn settle(
    alloc: Global,
    program: &Program,
    regions: &Regions,
    class: u32,
    budget: u64,
) -> Result<Outcome, AllocError>
    requires { IsUnbarred (program_of program.now) (environment_of regions.now) class budget }
    ensures outcome { IfOk result (λ outcome. IsOutcome (program_of program.now) (environment_of regions.now) class
        budget outcome) }
    ensures whole { IfOk result (λ outcome. IsSettleable program.now (environment_of regions.now) class
        → LeavesWhole program.now (environment_of regions.now) class budget outcome) }
{
    show_linked(program);
    show_from_file(program, class);
    match evaluate(alloc, program, regions, class, budget) {
        Ok(Evaluation::Settled(region)) => Ok(Outcome::Settled(region)),
        Ok(Evaluation::Stopped(Halt::Refused(refusal))) => Ok(Outcome::Refused(refusal)),
        Ok(Evaluation::Stopped(Halt::Barred)) => unreachable!(),
        Err(error) => Err(error),
    }
}
