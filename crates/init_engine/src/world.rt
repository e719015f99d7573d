//! Worlds: threads, what they share, and what they printed.

ghost use Rattle.std.specs.Prelude.{◌≡◌, ◌<◌, ◌≤◌, replicate, ◌∷◌, [], ℕ, List, length, map, slice_get};
ghost use Rattle.std.specs.Prelude.{IfOk, OnOk, OnErr, Some, None};
ghost use Rattle.vm_state.specs.Output.{Print};
ghost use Rattle.vm_state.specs.Shares.{shared_of, SharesTheSame};
ghost use Rattle.semantics.specs.Steps.{Going, step_thread};
ghost use Rattle.semantics.specs.Worlds.{Run, seen};
ghost use Rattle.init_engine.specs.Numbering.{AreNumbered};
ghost use Rattle.init_engine.specs.Observations.{IsObservation};
ghost use Rattle.init_engine.specs.steps.Threads.{RunsHere, TopRuns, IsTurnOf, view_of};
ghost use Rattle.machine.specs.Linked.{program_of};
ghost use Rattle.method_lowering.specs.steps.StepTables.{KeepsSteps};
ghost use Rattle.init_engine.specs.Threads.{thread_of, seen_of, HasNumber};
ghost use Rattle.init_engine.specs.Turns.{IsTurn, Prints, world_of};
ghost use Rattle.init_engine.specs.Stacks.{with_thread};
ghost use Rattle.machine.specs.Effects.{going};
ghost use Rattle.vm_state.specs.declared.frame.Frame.{Frame as Held};
ghost use Rattle.vm_state.specs.declared.initialization.Level.{Level};

use crate::procedure::{Progress, step_thread};
use courses::passage::run_passage;
use machine::effects::actor_of;
use method_lowering::step_table::StepTable;
use program::Program;
use std::alloc::{AllocError, Global};
use std::marker::Model;
use std::mem;
use vm_state::ends::{End, Ending};
use vm_state::frame::{Frame, FrameList, Segment};
use vm_state::initialization::Frames;
use vm_state::output::Output;
use vm_state::shared::Shared;

/// A thread with its stack, or how it ended.
#[derive(Drop)]
pub enum Thread {
    Going(Frames),
    Ended(End),
}

impl Thread {
    /// The thread of a number on this frame.
    pub(crate) fn on(alloc: Global, number: u32, top: Frame) -> Thread
        ensures thread { thread_of result ≡ Going (top ∷ []) [] }
        ensures number { HasNumber result number }
    {
        Thread::Going(Frames {
            thread: number,
            segment: Some(Segment {
                innermost: top,
                callers: FrameList::none(alloc),
            }),
            levels: None,
        })
    }

    /// Its ending, as far as it is seen.
    #[tactic(auto, unfolding(crate::specs::Threads::seen_of))]
    pub fn ending(&self) -> Ending
        ensures { result ≡ seen_of self.now }
    {
        match self {
            Thread::Going(_) => Ending::Going,
            Thread::Ended(end) => Ending::of(*end),
        }
    }
}

/// What a turn of a thread did.
#[derive(Clone, Copy, Debug)]
pub enum Turn {
    /// One step.
    Moved,
    /// Nothing: the thread has no step until another one moves.
    Waiting,
    /// Nothing: the thread has ended.
    Ended,
}

/// One step of a thread, where it has one, with what it printed kept. Where it has none, and where memory is refused,
/// all stays as it was.
#[tactic(auto, unfolding(semantics::specs::Steps::step_thread, vm_state::specs::Shares::shared_of))]
fn take_turn(
    alloc: Global,
    program: &Program,
    number: u32,
    thread: &mut Thread,
    shared: &mut Shared,
    printed: &mut Output,
) -> Result<Turn, AllocError>
    requires number { HasNumber thread.old number }
    ensures number { HasNumber thread.new number }
    ensures turn { IfOk result
        (λ turn. IsTurnOf (program_of program.now) number turn (view_of thread.old shared.old printed.old)
        (view_of thread.new shared.new printed.new)) }
    ensures thread { OnErr result (thread_of thread.new ≡ thread_of thread.old) }
    ensures shared { OnErr result (SharesTheSame shared.old shared.new) }
    ensures printed { OnErr result (printed.new ≡ printed.old) }
    ensures prints { IfOk result (λ turn. Prints turn printed.old printed.new) }
{
    let Thread::Going(frames) = thread else {
        return Ok(Turn::Ended);
    };
    match step_thread(alloc, program, frames, shared, printed)? {
        Progress::Moved => Ok(Turn::Moved),
        Progress::Printed(text) => {
            drop(text);
            Ok(Turn::Moved)
        }
        Progress::Ended(end) => {
            *thread = Thread::Ended(end);
            Ok(Turn::Moved)
        }
        Progress::Waits => Ok(Turn::Waiting),
    }
}

/// The threads, what they share, and what they printed. A contract sees the three; `world_of` of them is the
/// world as the definition has it.
pub struct World {
    threads: Vec<Thread>,
    shared: Shared,
    printed: Output,
}

impl Model for World {
    ghost use Rattle.std.specs.Prelude.{◌≤◌, length};
    ghost use Rattle.init_engine.specs.Standing.{Standing};
    ghost use Rattle.init_engine.specs.Numbering.{AreNumbered};

    ghost Value = { Standing };

    ghost view = { λ w. record { threads = w.threads.items; shared = w.shared; printed = w.printed } };

    // Each thread's stack has the thread's number, and there are at most 64.
    ghost invariant = { λ w. AreNumbered w.threads.items × (length w.threads.items ≤ 64) };
}

// By hand, since a derived one is proved anew wherever a world is let go.
impl Drop for World {
    fn drop(self) {
        let World {
            threads: _,
            shared: _,
            printed: _,
        } = self;
    }
}

/// What a world has shown.
#[derive(Drop)]
pub struct Seen {
    /// What was printed, in order.
    pub printed: Output,
    /// How far each thread has come, by its number.
    pub threads: Vec<Ending>,
}

/// What is seen of each thread.
fn endings(alloc: Global, threads: &[Thread]) -> Result<Vec<Ending>, AllocError>
    ensures { IfOk result (λ v. v.items ≡ map seen_of threads.now) }
{
    let mut endings = Vec::new(alloc);
    for thread in threads {
        endings.push(thread.ending())?;
    }
    Ok(endings)
}

/// Exchanges the frames of a thread that has not ended for these.
fn exchange_in(thread: &mut Thread, frames: &mut Frames)
    ensures exchanged { (fs : List Held) (ls : List Level) → thread_of thread.old ≡ Going fs ls
        → (thread_of thread.new ≡ going frames.old) × (going frames.new ≡ Going fs ls) }
    ensures number { (t : ℕ) → HasNumber thread.old t → frames.old.thread ≡ t
        → HasNumber thread.new t × (frames.new.thread ≡ t) }
{
    match thread {
        Thread::Going(own) => mem::swap(own, frames),
        Thread::Ended(_) => {}
    }
}

impl World {
    /// What the world has shown. What it printed is handed over.
    ///
    /// # Errors
    /// `AllocError` where memory is refused.
    pub fn into_seen(self, alloc: Global) -> Result<Seen, AllocError>
        ensures { IfOk result (λ s. IsObservation s (seen (world_of self))) }
    {
        let World {
            threads,
            shared: _,
            printed,
        } = self;
        let threads = endings(alloc, threads.as_slice())?;
        Ok(Seen { printed, threads })
    }

    /// What the world has shown. Of what it printed it is a copy.
    ///
    /// # Errors
    /// `AllocError` where memory is refused.
    pub fn seen(&self, alloc: Global) -> Result<Seen, AllocError>
        ensures { IfOk result (λ s. IsObservation s (seen (world_of self.now))) }
    {
        let threads = endings(alloc, self.threads.as_slice())?;
        let printed = self.printed.copy(alloc)?;
        Ok(Seen { printed, threads })
    }

    /// How far each thread has come, by its number.
    ///
    /// # Errors
    /// `AllocError` where memory is refused.
    pub fn endings(&self, alloc: Global) -> Result<Vec<Ending>, AllocError>
        ensures { IfOk result (λ v. v.items ≡ (seen (world_of self.now)).threads) }
    {
        let threads = endings(alloc, self.threads.as_slice())?;
        Ok(threads)
    }

    /// These threads, which have printed nothing.
    pub(crate) fn of_threads(alloc: Global, threads: Vec<Thread>, shared: Shared) -> World
        requires numbered { AreNumbered threads.items }
        requires count { length threads.items ≤ 64 }
        ensures { world_of result ≡ record { shared = shared_of shared []; threads = map thread_of threads.items } }
    {
        World {
            threads,
            shared,
            printed: Output::new(alloc),
        }
    }

    /// The threads with their stacks, by their numbers.
    pub fn threads(&self) -> &[Thread]
        ensures value { result.now ≡ self.now.threads }
        ensures numbered { AreNumbered result.now }
    {
        self.threads.as_slice()
    }

    /// What the threads share.
    pub fn shared(&self) -> &Shared
        ensures { result.now ≡ self.now.shared }
    {
        &self.shared
    }

    /// What was printed, in order.
    pub fn printed(&self) -> &Output
        ensures { result.now ≡ self.now.printed }
    {
        &self.printed
    }

    /// Exchanges the frames of a thread that has not ended for these.
    pub fn exchange(&mut self, thread: u32, frames: &mut Frames)
        requires thread { thread < length self.old.threads }
        requires number { frames.old.thread ≡ thread }
        ensures threads { length self.new.threads ≡ length self.old.threads }
        ensures printed { self.new.printed ≡ self.old.printed }
        ensures exchanged { (fs : List Held) (ls : List Level)
            → slice_get (world_of self.old).threads thread ≡ Some (Going fs ls)
            → (world_of self.new ≡ with_thread (world_of self.old) thread (going frames.old))
            × (going frames.new ≡ Going fs ls) }
        ensures number { frames.new.thread ≡ thread }
    {
        exchange_in(&mut self.threads[thread as usize], frames);
    }

    /// How many threads there are: at most 64.
    pub fn thread_count(&self) -> u32
        ensures { result ≡ length self.now.threads }
    {
        self.threads.len() as u32
    }

    /// One step of a thread (JVMS 5.5), where it has one. Where it has none the world stays as it was.
    ///
    /// # Errors
    /// `AllocError` where memory is refused; the world stays as it was.
    pub fn step(
        &mut self,
        alloc: Global,
        program: &Program,
        thread: u32,
    ) -> Result<Turn, AllocError>
        requires { thread < length self.old.threads }
        ensures ok { IfOk result (λ turn. IsTurn (program_of program.now) (world_of self.old) thread turn
            (world_of self.new)) }
        ensures threads { length self.new.threads ≡ length self.old.threads }
        ensures prints { IfOk result (λ turn. Prints turn self.old.printed self.new.printed) }
        ensures err { OnErr result (world_of self.new ≡ world_of self.old) }
    {
        let stepping = &mut self.threads[thread as usize];
        let turn = take_turn(
            alloc,
            program,
            thread,
            stepping,
            &mut self.shared,
            &mut self.printed,
        )?;
        Ok(turn)
    }

    /// Runs instructions of a thread after each of which it goes on in a frame above the same initializations, as long
    /// as the next is such a one and there were fewer than `most`. It answers how many there were. The steps of the
    /// methods that run often enough are made and kept.
    ///
    /// # Errors
    /// `AllocError` where memory is refused; the thread may have lost its frames then.
    pub(crate) fn run_course(
        &mut self,
        alloc: Global,
        program: &Program,
        table: &mut StepTable,
        thread: u32,
        most: u64,
    ) -> Result<u64, AllocError>
        requires thread { thread < length self.old.threads }
        requires steps { KeepsSteps program.now table.old }
        ensures steps { OnOk result (KeepsSteps program.now table.new) }
        ensures run { IfOk result (λ count. Run (program_of program.now) (world_of self.old) (replicate count thread)
            (world_of self.new)) }
        ensures most { IfOk result (λ count. count ≤ most) }
        ensures printed { self.new.printed ≡ self.old.printed }
        ensures threads { length self.new.threads ≡ length self.old.threads }
    {
        let running = &mut self.threads[thread as usize];
        let count = run_thread(alloc, program, table, running, &mut self.shared, most)?;
        Ok(count)
    }
}

/// Runs instructions after each of which a thread goes on in a frame above the same initializations.
///
/// # Errors
/// `AllocError` where memory is refused.
fn run_top(
    alloc: Global,
    program: &Program,
    table: &mut StepTable,
    frames: &mut Frames,
    shared: &mut Shared,
    most: u64,
) -> Result<u64, AllocError>
    requires { KeepsSteps program.now table.old }
    ensures steps { OnOk result (KeepsSteps program.now table.new) }
    ensures run { IfOk result (λ count. TopRuns program.now count frames.old shared.old frames.new shared.new) }
    ensures most { IfOk result (λ count. count ≤ most) }
    ensures thread { frames.new.thread ≡ frames.old.thread }
{
    let by = actor_of(frames);
    let Some(segment) = &mut frames.segment else {
        return Ok(0);
    };
    let count = run_passage(alloc, program, table, by, segment, shared, most)?;
    Ok(count)
}

/// Runs instructions after each of which a thread goes on in a frame above the same initializations.
///
/// # Errors
/// `AllocError` where memory is refused.
fn run_thread(
    alloc: Global,
    program: &Program,
    table: &mut StepTable,
    thread: &mut Thread,
    shared: &mut Shared,
    most: u64,
) -> Result<u64, AllocError>
    requires { KeepsSteps program.now table.old }
    ensures steps { OnOk result (KeepsSteps program.now table.new) }
    ensures run { IfOk result (λ count. RunsHere program.now count thread.old shared.old thread.new shared.new) }
    ensures most { IfOk result (λ count. count ≤ most) }
    ensures number { (t : ℕ) → HasNumber thread.old t → HasNumber thread.new t }
{
    match thread {
        Thread::Going(frames) => run_top(alloc, program, table, frames, shared, most),
        Thread::Ended(_) => Ok(0),
    }
}
