//! What workers ask before a class, and by what they settle it.

ghost use Rattle.std.specs.Prelude.{IfOk};
ghost use Rattle.machine.specs.Linked.{program_of};
ghost use Rattle.region_shape.specs.Regions.{environment_of};
ghost use Rattle.evaluator.specs.Outcomes.{IsOutcome, IsUnbarred};

use evaluator::outcome::Outcome;
use evaluator::settling::settle;
use program::Program;
use region_shape::regions::Regions;
use std::alloc::{AllocError, Global};

/// Asked by each worker before and after each class that it settles. `who` is the worker, from 0, and `job` the number
/// of the class.
pub trait Gate: Sync {
    /// Whether a worker may begin a class, where it was asked `turn` times before.
    fn ready(&self, who: u32, job: u32, turn: u32) -> bool;

    /// Settles a class, as the evaluator does.
    ///
    /// # Errors
    /// `AllocError` where memory is refused.
    fn settle(
        &self,
        alloc: Global,
        program: &Program,
        regions: &Regions,
        class: u32,
        budget: u64,
    ) -> Result<Outcome, AllocError>
        requires { IsUnbarred (program_of program.now) (environment_of regions.now) class budget }
        ensures { IfOk result (λ outcome. IsOutcome (program_of program.now) (environment_of regions.now) class budget
            outcome) }
    {
        settle(alloc, program, regions, class, budget)
    }

    /// The class is settled. A `who` as high as the number of workers is the caller: no worker settled it.
    fn done(&self, who: u32, job: u32);
}

/// Always ready.
#[derive(Clone, Copy)]
pub struct Open;

impl Gate for Open {
    fn ready(&self, _who: u32, _job: u32, _turn: u32) -> bool {
        true
    }

    fn done(&self, _who: u32, _job: u32) {}
}

/// How often a gate is asked at most.
const MOST_ASKS: u32 = 1_000_000;

/// Who settles classes by a gate: a worker, from 0, or the caller, whose number is that of the workers.
#[derive(Drop)]
pub(crate) struct Worker<'a, G: Gate> {
    pub gate: &'a G,
    pub who: u32,
}

impl<'a, G: Gate> Worker<'a, G> {
    /// Asks the gate until it is ready for a class.
    pub(crate) fn ask(&self, class: u32) {
        for turn in 0..MOST_ASKS {
            if self.gate.ready(self.who, class, turn) {
                return;
            }
        }
    }

    /// Tells the gate that a class is settled.
    pub(crate) fn done(&self, class: u32) {
        self.gate.done(self.who, class);
    }
}
