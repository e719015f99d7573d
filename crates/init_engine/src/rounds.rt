//! Rounds as far as a slice goes: in each round threads 0, 1, .. take one step each if they have one.

ghost use Rattle.std.specs.Prelude.{◌≡◌, ◌+◌, ◌<◌, ◌≤◌, ◌≢◌, ◌^◌, length, replicate, slice_get, Some, IfOk, OnOk};
ghost use Rattle.std.specs.Bool.{OnFalse, OnTrue};
ghost use Rattle.vm_state.specs.Output.{Print};
ghost use Rattle.semantics.specs.Worlds.{Run};
ghost use Rattle.machine.specs.Linked.{program_of};
ghost use Rattle.method_lowering.specs.steps.StepTables.{KeepsSteps};
ghost use Rattle.init_engine.specs.Turns.{IsTurn, world_of};
ghost use Rattle.init_engine.specs.Schedules.{schedule_of};
ghost use Rattle.init_engine.specs.steps.Rounds.{IsAsking, IsRunAhead};
ghost use Rattle.init_engine.specs.steps.Slices.{AsksFurther, GoesOn, HasHalted, HasPaused, IsLast, IsPlace};
ghost use Rattle.init_engine.specs.steps.Slices.{HasRunOut, IsSpent, PrintsBy, Spends, steps_of, to_go_from};
ghost use Rattle.init_engine.specs.Turnings.{RunsAhead};

use crate::schedule::Schedule;
use crate::world::{Turn, World};
use method_lowering::step_table::StepTable;
use program::Program;
use std::alloc::{AllocError, Global};
use vm_state::output::Output;

/// Where rounds stand.
#[derive(Clone, Copy)]
pub(crate) struct RoundPlace {
    /// How many steps may be made from the beginning of the round on.
    pub(crate) left: u64,
    /// How many threads of the round were asked: the next one has this number.
    pub(crate) asked: u32,
    /// How many steps they had.
    pub(crate) done: u64,
}

impl RoundPlace {
    /// At the beginning of a round.
    pub(crate) fn begin(left: u64) -> RoundPlace
        ensures { result ≡ record { left = left; asked = 0; done = 0 } }
    {
        RoundPlace {
            left,
            asked: 0,
            done: 0,
        }
    }

    /// How many of `steps` steps may be rounds of one step: none in the midst of a round.
    fn rounds_of_one(&self, steps: u64) -> u64
        ensures left { result ≤ self.now.left }
        ensures steps { result ≤ steps }
        ensures midst { 0 < self.now.asked → result ≡ 0 }
    {
        if self.asked > 0 {
            return 0;
        }
        self.left.min(steps)
    }

    /// Whether this is a last round: the limit was reached, or all threads were asked and none had a step.
    fn is_last(&self, threads: u32) -> bool
        ensures last { OnTrue result (IsLast threads self.now) }
        ensures further { OnFalse result ((self.now.done ≢ self.now.left)
            × (self.now.asked ≡ threads → 0 < self.now.done)) }
    {
        self.done == self.left || (self.asked == threads && self.done == 0)
    }
}

/// How many steps a slice may still take, and how many bytes it may still print.
#[derive(Clone, Copy)]
pub(crate) struct Allowance {
    pub(crate) steps: u64,
    pub(crate) text: u64,
}

impl Allowance {
    /// Whether nothing may be done any more.
    fn is_spent(&self) -> bool
        ensures spent { OnTrue result (IsSpent self.now) }
        ensures unspent { OnFalse result ((0 < self.now.steps) × (0 < self.now.text)) }
    {
        self.steps == 0 || self.text == 0
    }
}

/// How many bytes the print of a number has, if there is one.
fn text_at(printed: &Output, number: usize) -> u64
    ensures none { length printed.now ≤ number → result ≡ 0 }
    ensures some { (print : Print) → slice_get printed.now number ≡ Some print → result ≡ length print.text }
{
    match printed.print(number) {
        Some((_, text)) => text.len() as u64,
        None => 0,
    }
}

/// One step of a thread, where it has one. What it printed is taken from the bytes that may still be printed.
#[inline(always)]
fn step(
    alloc: Global,
    program: &Program,
    world: &mut World,
    text: &mut u64,
    thread: u32,
) -> Result<Turn, AllocError>
    requires thread { thread < length world.old.threads }
    requires text { 0 < text.old }
    ensures turn { IfOk result (λ turn. IsTurn (program_of program.now) (world_of world.old) thread turn
        (world_of world.new)) }
    ensures prints { IfOk result (λ turn. PrintsBy (steps_of turn) world.old.printed world.new.printed text.old
        text.new) }
    ensures threads { length world.new.threads ≡ length world.old.threads }
{
    let prints = world.printed().count();
    let turn = world.step(alloc, program, thread)?;
    *text = text.saturating_sub(text_at(world.printed(), prints));
    Ok(turn)
}

/// How many steps a turn was: one or none.
fn steps_made(turn: Turn) -> u64
    ensures { result ≡ steps_of turn }
{
    match turn {
        Turn::Moved => 1,
        Turn::Waiting => 0,
        Turn::Ended => 0,
    }
}

/// Asks a thread for a step, and records it where it had one.
#[inline(always)]
fn ask(
    alloc: Global,
    program: &Program,
    world: &mut World,
    schedule: &mut Schedule,
    text: &mut u64,
    thread: u32,
) -> Result<Turn, AllocError>
    requires thread { thread < length world.old.threads }
    requires text { 0 < text.old }
    requires room { length (schedule_of schedule.old) + 1 < 2 ^ 64 }
    ensures asking { IfOk result (λ turn. IsAsking (program_of program.now) (world_of world.old) thread turn
        (world_of world.new) (schedule_of schedule.old) (schedule_of schedule.new)) }
    ensures prints { IfOk result (λ turn. PrintsBy (steps_of turn) world.old.printed world.new.printed text.old
        text.new) }
    ensures threads { length world.new.threads ≡ length world.old.threads }
{
    match step(alloc, program, world, text, thread)? {
        Turn::Moved => {
            schedule.add(thread, 1)?;
            Ok(Turn::Moved)
        }
        Turn::Waiting => Ok(Turn::Waiting),
        Turn::Ended => Ok(Turn::Ended),
    }
}

/// Goes on with a round, up to its end, to the limit or to the end of the slice. It answers where it stands then.
fn round(
    alloc: Global,
    program: &Program,
    world: &mut World,
    schedule: &mut Schedule,
    from: RoundPlace,
    allowance: &mut Allowance,
) -> Result<RoundPlace, AllocError>
    requires place { IsPlace (length world.old.threads) from }
    requires room { length (schedule_of schedule.old) + to_go_from from < 2 ^ 64 }
    ensures asks { IfOk result (λ to. AsksFurther (program_of program.now) from to (world_of world.old)
        (world_of world.new) (schedule_of schedule.old) (schedule_of schedule.new)) }
    ensures place { IfOk result (IsPlace (length world.old.threads)) }
    ensures left { IfOk result (λ to. to.left ≡ from.left) }
    ensures spends { IfOk result (λ to. Spends from to (schedule_of schedule.old) (schedule_of schedule.new)
        world.old.printed world.new.printed allowance.old allowance.new) }
    ensures paused { IfOk result (λ to. HasPaused (length world.old.threads) to allowance.new) }
    ensures threads { length world.new.threads ≡ length world.old.threads }
{
    let mut place = from;
    'asking: while place.asked < world.thread_count() {
        if place.done == place.left || allowance.is_spent() {
            break;
        }
        let turn = ask(
            alloc,
            program,
            world,
            schedule,
            &mut allowance.text,
            place.asked,
        )?;
        let made = steps_made(turn);
        place.done += made;
        place.asked += 1;
        allowance.steps -= made;
    }
    Ok(place)
}

/// Runs one thread ahead: instructions after each of which one of its frames goes on, and then one step, as long as it
/// has one, there were fewer than `most`, and they printed fewer than `text` bytes. It answers how many there were.
fn run_alone(
    alloc: Global,
    program: &Program,
    world: &mut World,
    table: &mut StepTable,
    thread: u32,
    text: &mut u64,
    most: u64,
) -> Result<u64, AllocError>
    requires thread { thread < length world.old.threads }
    requires steps { KeepsSteps program.now table.old }
    ensures steps { OnOk result (KeepsSteps program.now table.new) }
    ensures run { IfOk result (λ done. Run (program_of program.now) (world_of world.old) (replicate done thread)
        (world_of world.new)) }
    ensures most { IfOk result (λ done. done ≤ most) }
    ensures prints { IfOk result (λ done. PrintsBy done world.old.printed world.new.printed text.old text.new) }
    ensures whole { IfOk result (λ done. HasRunOut (program_of program.now) (world_of world.new) thread most done
        text.new) }
    ensures threads { length world.new.threads ≡ length world.old.threads }
{
    let mut left = most;
    'ahead: while *text > 0 {
        let count = world.run_course(alloc, program, table, thread, left)?;
        left -= count;
        if left == 0 {
            break;
        }
        match step(alloc, program, world, text, thread)? {
            Turn::Moved => left -= 1,
            Turn::Waiting => break,
            Turn::Ended => break,
        }
    }
    Ok(most - left)
}

/// Where there is one thread: its steps, each a round. It answers how many there were.
fn run_ahead(
    alloc: Global,
    program: &Program,
    world: &mut World,
    table: &mut StepTable,
    schedule: &mut Schedule,
    text: &mut u64,
    most: u64,
) -> Result<u64, AllocError>
    requires room { length (schedule_of schedule.old) + most < 2 ^ 64 }
    requires steps { KeepsSteps program.now table.old }
    ensures steps { OnOk result (KeepsSteps program.now table.new) }
    ensures ahead { IfOk result (λ done. IsRunAhead (program_of program.now) (length world.old.threads)
        (world_of world.old) most done (world_of world.new) (schedule_of schedule.old) (schedule_of schedule.new)) }
    ensures prints { IfOk result (λ done. PrintsBy done world.old.printed world.new.printed text.old text.new) }
    ensures threads { length world.new.threads ≡ length world.old.threads }
{
    if world.thread_count() != 1 {
        return Ok(0);
    }
    let done = run_alone(alloc, program, world, table, 0, text, most)?;
    if done > 0 {
        schedule.add(0, done)?;
    }
    Ok(done)
}

/// Rounds from a place on, up to one without a step, to the limit or to the end of the slice. It answers where they
/// stand then, and whether they are over.
pub(crate) fn run_rounds(
    alloc: Global,
    program: &Program,
    world: &mut World,
    table: &mut StepTable,
    schedule: &mut Schedule,
    from: RoundPlace,
    allowance: &mut Allowance,
) -> Result<(RoundPlace, bool), AllocError>
    requires place { IsPlace (length world.old.threads) from }
    requires room { length (schedule_of schedule.old) + to_go_from from < 2 ^ 64 }
    requires steps { KeepsSteps program.now table.old }
    ensures steps { OnOk result (KeepsSteps program.now table.new) }
    ensures turns { IfOk result (λ r. GoesOn (program_of program.now) (length world.old.threads) from r.0
        (world_of world.old) (world_of world.new) (schedule_of schedule.old) (schedule_of schedule.new)) }
    ensures place { IfOk result (λ r. IsPlace (length world.old.threads) r.0) }
    ensures spends { IfOk result (λ r. Spends from r.0 (schedule_of schedule.old) (schedule_of schedule.new)
        world.old.printed world.new.printed allowance.old allowance.new) }
    ensures halted { IfOk result (λ r. HasHalted (length world.old.threads) r.1 r.0 allowance.new) }
    ensures threads { length world.new.threads ≡ length world.old.threads }
{
    let count = world.thread_count();
    let mut place = from;
    'rounds: loop {
        let most = place.rounds_of_one(allowance.steps);
        let ahead = run_ahead(
            alloc,
            program,
            world,
            table,
            schedule,
            &mut allowance.text,
            most,
        )?;
        place.left -= ahead;
        allowance.steps -= ahead;
        place = round(alloc, program, world, schedule, place, allowance)?;
        if place.is_last(count) {
            return Ok((place, true));
        }
        if place.asked < count {
            return Ok((place, false));
        }
        place = RoundPlace::begin(place.left - place.done);
    }
}

impl World {
    /// Runs one thread alone, as long as it has a step, there were fewer than `steps`, and they printed fewer than
    /// `bytes` bytes. It answers how many there were. The steps of the methods that run often enough are made and kept.
    ///
    /// # Errors
    /// `AllocError` where memory is refused; the thread may have lost its frames then.
    pub fn run_alone(
        &mut self,
        alloc: Global,
        program: &Program,
        table: &mut StepTable,
        thread: u32,
        steps: u64,
        bytes: u64,
    ) -> Result<u64, AllocError>
        requires thread { thread < length self.old.threads }
        requires steps { KeepsSteps program.now table.old }
        ensures steps { OnOk result (KeepsSteps program.now table.new) }
        ensures ahead { IfOk result
            (λ made. RunsAhead (program_of program.now) thread steps bytes made self.old self.new) }
        ensures threads { length self.new.threads ≡ length self.old.threads }
    {
        let mut text = bytes;
        let made = run_alone(alloc, program, self, table, thread, &mut text, steps)?;
        Ok(made)
    }
}
