//! One instruction of a class's initializer that runs alone.

ghost use Rattle.std.specs.Prelude.{◌≡◌, ◌-◌, suc, IfOk, OnErr};
ghost use Rattle.vm_state.specs.Segments.{frames_of};
ghost use Rattle.semantics.specs.Quiet.{quiet_step};
ghost use Rattle.machine.specs.Accesses.{Untouched};
ghost use Rattle.machine.specs.Linked.{program_of};
ghost use Rattle.region_shape.specs.Regions.{region_of, environment_of};
ghost use Rattle.evaluator.specs.Outcomes.{stop_of};
ghost use Rattle.evaluator.specs.steps.Within.{capped};
ghost use Rattle.evaluator.specs.steps.Builds.{stopped_build};
ghost use Rattle.evaluator.specs.steps.BuildTables.{build_of};
ghost use Rattle.evaluator.specs.steps.Steps.{Performs, IsProgress};
ghost use Rattle.semantics.specs.Quiet.{Stops};
ghost use Rattle.machine.specs.declared.kinds.Stop.{Stop as Reason};

use crate::build::BuildStore;
use crate::outcome::{Halt, Refusal};
use machine::execute::execute;
use machine::kinds::{Actor, Conclusion, Stop};
use machine::moving::{Left, conclude};
use program::Program;
use region_shape::regions::Regions;
use std::alloc::{AllocError, Global};
use vm_state::frame::{Frame, Segment};
use vm_state::spares::Spares;
use vm_state::value::Maker;

/// A class's initializer, and what it runs over: its program, and the regions at hand.
#[derive(Clone, Copy)]
pub struct Initializer<'a> {
    pub program: &'a Program,
    pub regions: &'a Regions,
    pub class: u32,
}

/// What one instruction of an initializer did.
#[derive(Clone, Copy)]
pub enum Progress {
    /// Its frames go on.
    On,
    /// The last frame returned.
    Over,
    /// Nothing that counts: the initializer is stopped.
    Stopped(Halt),
}

/// The next instruction of a frame, which may make `most` elements. The store is set up for it first, since what an
/// instruction promises of a store is what definitions see alone.
#[tactic(auto, unfolding(machine::specs::Accesses::unless_refused))]
fn perform<'a>(
    alloc: Global,
    spares: &mut Spares,
    given: Initializer<'a>,
    store: &mut BuildStore<'a>,
    frame: &mut Frame,
    most: u64,
) -> Result<Conclusion, Stop>
    ensures performs { Performs
        (capped most (quiet_step (program_of given.entry.program.now) (environment_of given.entry.regions.now)
        given.entry.class frame.old (region_of store.old.own)))
        (build_of store.new) frame.new result }
    ensures frame { Untouched result frame.old frame.new }
    ensures activity { frame.new.activity ≡ frame.old.activity }
{
    store.program = given.program;
    store.regions = given.regions;
    store.class = given.class;
    store.most = most;
    store.made = 0;
    let by = Actor {
        thread: 0,
        maker: Maker::Class(given.class),
    };
    execute(alloc, spares, given.program, by, frame, store)
}

/// What stopped an instruction, as that of the initializer.
///
/// # Errors
/// `AllocError` where it was memory.
fn halted(stop: Stop) -> Result<Halt, AllocError>
    ensures ok { IfOk result (λ halt. stopped_build stop ≡ Stops (stop_of halt)) }
    ensures other { IfOk result (λ halt. stop ≡ Reason.Memory → ⊥) }
    ensures err { OnErr result (stop ≡ Reason.Memory) }
{
    match stop {
        Stop::ForeignObject => Ok(Halt::Refused(Refusal::ForeignObject)),
        Stop::OverBudget => Ok(Halt::Refused(Refusal::OverBudget)),
        Stop::Barred | Stop::Needs(_) | Stop::Waits => Ok(Halt::Barred),
        Stop::Memory => Err(AllocError),
    }
}

/// The next instruction of an initializer, which may make `most` elements. A frame that begins takes its memory of the
/// spares, and one that ends leaves it there.
///
/// # Errors
/// `AllocError` where memory is refused.
pub fn take_step<'a>(
    alloc: Global,
    spares: &mut Spares,
    given: Initializer<'a>,
    store: &mut BuildStore<'a>,
    segment: &mut Segment,
    most: u64,
) -> Result<Progress, AllocError>
    ensures { IfOk result (λ progress. IsProgress (program_of given.entry.program.now)
        (environment_of given.entry.regions.now) given.entry.class (frames_of segment.old) (region_of store.old.own)
        (suc most) progress (frames_of segment.new) (region_of store.new.own) (most - store.new.made)) }
{
    let frame = &mut segment.innermost;
    let conclusion = match perform(alloc, spares, given, store, frame, most) {
        Ok(conclusion) => conclusion,
        Err(stop) => return Ok(Progress::Stopped(halted(stop)?)),
    };
    Ok(match conclude(spares, segment, conclusion)? {
        Left::Stands => Progress::On,
        Left::Nothing => Progress::Over,
        Left::Prints { .. } => Progress::Stopped(Halt::Barred),
        Left::Raises(..) => Progress::Stopped(Halt::Refused(Refusal::Raised)),
        Left::NoRoom(_) => Progress::Stopped(Halt::Refused(Refusal::Faulted)),
        Left::Halts(_) => Progress::Stopped(Halt::Refused(Refusal::Faulted)),
    })
}
