//! Turns that go on by slices: in each round threads 0, 1, .. take one step each if they have one.

ghost use Rattle.std.specs.Prelude.{◌≡◌, ◌<◌, ◌+◌, [], length, IfOk, OnOk, ℕ};
ghost use Rattle.semantics.specs.Worlds.{Run, World as DefinedWorld};
ghost use Rattle.semantics.specs.Programs.{Program as DefinedProgram};
ghost use Rattle.machine.specs.Linked.{program_of};
ghost use Rattle.program.specs.Tables.{Tables};
ghost use Rattle.init_engine.specs.Turns.{world_of};
ghost use Rattle.init_engine.specs.Turnings.{CanGoOn, HasTurned, IsSlice, IsUnderWay};
ghost use Rattle.init_engine.specs.Schedules.{schedule_of, AreRuns};
ghost use Rattle.init_engine.specs.Rounds.{Turns, HasStopped};

use crate::rounds::{Allowance, RoundPlace, run_rounds};
use crate::schedule::Schedule;
use crate::world::World;
use method_lowering::step_table::StepTable;
use program::Program;
use std::alloc::{AllocError, Global};
use std::marker::Model;
use vm_state::output::Output;

/// Turns of a world that go on by slices, so that what was printed can be sent in between. A contract sees where they
/// stand.
pub struct Turning {
    world: World,
    table: StepTable,
    schedule: Schedule,
    place: RoundPlace,
}

impl Model for Turning {
    ghost use Rattle.init_engine.specs.Turnings.{Midway};

    ghost Value = { Midway };

    ghost view = { λ t. record {
      world = t.world;
      schedule = t.schedule;
      kept = t.table;
      left = t.place.left;
      asked = t.place.asked;
      done = t.place.done;
    } };
}

// By hand, since a derived one is proved anew wherever one is let go.
impl Drop for Turning {
    fn drop(self) {
        let Turning {
            world: _,
            table: _,
            schedule: _,
            place: _,
        } = self;
    }
}

impl Turning {
    /// The turns of a world, of at most `limit` steps, before the first of them.
    pub fn new(alloc: Global, world: World, limit: u64) -> Turning
        ensures world { result.world ≡ world }
        ensures schedule { result.schedule ≡ [] }
        ensures begun { (P : DefinedProgram) → IsUnderWay P (world_of world) limit result }
        ensures ready { (P : Tables) → CanGoOn P result }
    {
        Turning {
            world,
            table: StepTable::new(alloc),
            schedule: Schedule::new(alloc),
            place: RoundPlace::begin(limit),
        }
    }

    /// Goes on for a slice: for at most `steps` steps, and until at least `bytes` bytes were printed in it. It answers
    /// whether the turns are over: the limit was reached, or no thread has a step. A slice may end in the midst of a
    /// round, and the next one goes on from there, so the schedule is the same whatever the slices are.
    ///
    /// # Errors
    /// `AllocError` where memory is refused. What was printed before the slice was printed by a run; of where the turns
    /// stand nothing is promised then, and they do not go on.
    pub fn go_on(
        &mut self,
        alloc: Global,
        program: &Program,
        steps: u64,
        bytes: u64,
    ) -> Result<bool, AllocError>
        requires ready { CanGoOn program.now self.old }
        requires steps { 0 < steps }
        requires bytes { 0 < bytes }
        ensures ready { OnOk result (CanGoOn program.now self.new) }
        ensures turns { (first : DefinedWorld) (limit : ℕ)
            → IsUnderWay (program_of program.now) first limit self.old
            → IfOk result (λ over. HasTurned (program_of program.now) first limit over self.new) }
        ensures slice { IfOk result (λ over. IsSlice steps bytes over self.old self.new) }
        ensures threads { length self.new.world.threads ≡ length self.old.world.threads }
    {
        let mut allowance = Allowance { steps, text: bytes };
        let (place, over) = run_rounds(
            alloc,
            program,
            &mut self.world,
            &mut self.table,
            &mut self.schedule,
            self.place,
            &mut allowance,
        )?;
        self.place = place;
        Ok(over)
    }

    /// The prints so far, in order.
    pub fn printed(&self) -> &Output
        ensures { result.now ≡ self.now.world.printed }
    {
        self.world.printed()
    }

    /// The world that the turns have come to.
    pub fn world(&self) -> &World
        ensures { result.now ≡ self.now.world }
    {
        &self.world
    }

    /// The world, and the schedule by its runs.
    ///
    /// # Errors
    /// `AllocError` where memory is refused.
    pub fn into_parts(self) -> Result<(World, Vec<(u32, u64)>), AllocError>
        ensures world { IfOk result (λ r. r.0 ≡ self.world) }
        ensures schedule { IfOk result (λ r. r.1.items ≡ self.schedule) }
        ensures runs { IfOk result (λ r. AreRuns r.1.items) }
    {
        let Turning {
            world,
            table: _,
            schedule,
            place: _,
        } = self;
        let runs = schedule.into_runs()?;
        Ok((world, runs))
    }
}

/// Runs a world by turns, up to a round without a step or to `limit` steps. It answers the last world, and the
/// schedule by its runs: a thread, and how many steps it made in a row; neighbours are of different threads. Where that
/// is of fewer steps than the limit, no thread has one.
///
/// # Errors
/// `AllocError` where memory is refused.
pub fn turns(
    alloc: Global,
    program: &Program,
    world: World,
    limit: u64,
) -> Result<(World, Vec<(u32, u64)>), AllocError>
    // The last world is that of a run over the schedule, and the schedule is the turns'.
    ensures run { IfOk result (λ r. Run (program_of program.now) (world_of world) (schedule_of r.1.items)
        (world_of r.0)) }
    ensures turns { IfOk result (λ r. Turns (program_of program.now) (length world.threads) limit (world_of world)
        (schedule_of r.1.items) (world_of r.0)) }
    // It ended at the limit, or where no thread has a step.
    ensures stop { IfOk result (λ r. HasStopped (program_of program.now) (length world.threads) limit
        (schedule_of r.1.items) (world_of r.0)) }
    ensures runs { IfOk result (λ r. AreRuns r.1.items) }
    ensures threads { IfOk result (λ r. length r.0.threads ≡ length world.threads) }
{
    let mut turning = Turning::new(alloc, world, limit);
    'slices: loop {
        if turning.go_on(alloc, program, u64::MAX, u64::MAX)? {
            break;
        }
    }
    let (last, runs) = turning.into_parts()?;
    Ok((last, runs))
}
