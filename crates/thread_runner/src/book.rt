//! One history of all threads, and how much of what was printed has gone out.

ghost use Rattle.std.specs.Prelude.{◌≡◌, ◌≢◌, ◌+◌, ◌<◌, ◌≤◌, ◌^◌, ◌⊎◌, ℕ, [], true, false, Some, None, IfOk, OnOk};
ghost use Rattle.std.specs.Prelude.{OnErr, length, replicate};
ghost use Rattle.vm_state.specs.declared.classes.ClassState.TheVariants.{Initialized};
ghost use Rattle.vm_state.specs.declared.frame.Frame.{Frame as Held};
ghost use Rattle.vm_state.specs.Segments.{frames_of};
ghost use Rattle.semantics.specs.Worlds.{Run};
ghost use Rattle.machine.specs.Linked.{program_of};
ghost use Rattle.method_lowering.specs.steps.StepTables.{KeepsSteps};
ghost use Rattle.init_engine.specs.Schedules.{AreRuns};
ghost use Rattle.init_engine.specs.Stacks.{AreFrames, front_of};
ghost use Rattle.init_engine.specs.Turns.{world_of};
ghost use Rattle.thread_runner.specs.Commits.{Fits, Grew, IsCommit, IsCounted, PagesGoOn, Same};
ghost use Rattle.thread_runner.specs.Fronts.{FitsFront, IsFrontCommit, IsRunCommit, with_top};
ghost use Rattle.thread_runner.specs.Kept.{IsKept, printed_text, steps_of};
ghost use Rattle.thread_runner.specs.Unshared.{AreDone, is_done};
ghost use Rattle.thread_runner.specs.Sendings.{AreOfPrints, SendsOn};
ghost use Rattle.thread_runner.specs.steps.Alone.{CanRunOn, RunsOn};
ghost use Rattle.thread_runner.specs.steps.Landings.{MayLand, landed};

use crate::advance::{Commit, add_some, all_done, all_initialized, answer_of, counted, most_steps};
use crate::done_set::DoneSet;
use crate::front::{FrontRun, FrontStretch};
use crate::landing::{Landing, land};
use crate::last::{Slice, run_in};
use crate::origin::Origin;
use crate::sending::{send_further, text_length};
use crate::stretch::Stretch;
use crate::top::put_in;
use init_engine::World;
use method_lowering::step_table::StepTable;
use program::Program;
use sinks::{Sink, SinkFault};
use std::alloc::{AllocError, Global};
use std::marker::{Model, PhantomData};
use vm_state::frame::{Frame, Segment};
use vm_state::initialization::Frames;

/// A world, the journal that leads to it from the start, and how much of what was printed has gone out.
#[derive(Drop)]
pub struct Book<O: Origin> {
    world: World,
    journal: Vec<(u32, u64)>,
    /// How many steps the journal has, and how many it may have.
    steps: u64,
    limit: u64,
    /// How many prints have gone out whole, and how many bytes of those behind them.
    prints: usize,
    bytes: usize,
    of: PhantomData<O>,
}

impl<O: Origin> Model for Book<O> {
    ghost use Rattle.thread_runner.specs.Kept.{IsBook, Pages};
    ghost use Rattle.thread_runner.specs.Sendings.{sent_of};

    ghost Value = { Pages };

    ghost view = { λ b. record {
      past = record { world = b.world; journal = b.journal.items; limit = b.limit };
      sent = sent_of b.world.printed b.prints b.bytes;
      part = b.bytes;
    } };

    ghost invariant = { λ b. IsBook O.program O.start b.steps
        (record { world = b.world; journal = b.journal.items; limit = b.limit }) b.prints b.bytes };
}

impl<O: Origin> Book<O> {
    /// A book of a world that is the start, with an empty journal, of which nothing has gone out. It takes no memory.
    pub fn new(alloc: Global, world: World, limit: u64) -> Book<O>
        requires start { world_of world ≡ O.start }
        requires limit { limit ≤ 2 ^ 62 }
        ensures past { result.past ≡ record { world = world; journal = []; limit = limit } }
        ensures sent { result.sent ≡ 0 }
        ensures part { result.part ≡ 0 }
    {
        Book {
            world,
            journal: Vec::new(alloc),
            steps: 0,
            limit,
            prints: 0,
            bytes: 0,
            of: PhantomData,
        }
    }

    /// The world that the journal leads to.
    pub fn world(&self) -> &World
        ensures is { result.now ≡ self.now.past.world }
        ensures kept { IsKept O.program O.start self.now.past }
        ensures sent { self.now.sent ≤ length (printed_text self.now) }
        // Where nothing has gone out behind the prints that have gone out whole.
        ensures prints { self.now.part ≡ 0 → AreOfPrints self.now.past.world.printed self.now.sent }
    {
        &self.world
    }

    /// The journal by its runs.
    pub fn journal(&self) -> &[(u32, u64)]
        ensures is { result.now ≡ self.now.past.journal }
        ensures runs { AreRuns result.now }
    {
        self.journal.as_slice()
    }

    /// The world, and the journal that leads to it by its runs.
    pub(crate) fn into_parts(self) -> (World, Vec<(u32, u64)>)
        ensures world { result.0 ≡ self.past.world }
        ensures journal { result.1.items ≡ self.past.journal }
        ensures runs { AreRuns result.1.items }
    {
        let Book {
            world,
            journal,
            steps: _,
            limit: _,
            prints: _,
            bytes: _,
            of: _,
        } = self;
        (world, journal)
    }

    /// Whether the journal has as many steps as it may.
    pub(crate) fn is_full(&self) -> bool
        ensures yes { result ≡ true → self.now.past.limit ≤ steps_of self.now.past }
        ensures no { result ≡ false → steps_of self.now.past < self.now.past.limit }
    {
        self.steps >= self.limit
    }

    /// Whether a commit may count so many steps: the journal has not as many as it may, and has fewer than 1,024 more
    /// after it.
    fn has_room(&self, count: u64) -> bool
        ensures below { result ≡ true → steps_of self.now.past < self.now.past.limit }
        ensures yes { result ≡ true → steps_of self.now.past + count < self.now.past.limit + 1024 }
        ensures no { result ≡ false → (self.now.past.limit ≤ steps_of self.now.past)
            ⊎ (self.now.past.limit + 1024 ≤ steps_of self.now.past + count) }
    {
        self.steps < self.limit && count < self.limit - self.steps + 1_024
    }

    /// The frames of a thread; none where it has ended.
    ///
    /// # Errors
    /// `AllocError` where memory is refused.
    pub fn frames(&self, alloc: Global, thread: u32) -> Result<Frames, AllocError>
        requires { thread < length self.now.past.world.threads }
        ensures { IfOk result (λ s. AreFrames (world_of self.now.past.world) thread s) }
    {
        self.world.frames(alloc, thread)
    }

    /// The given classes of a program that are initialized.
    ///
    /// # Errors
    /// `AllocError` where memory is refused.
    pub fn done(&self, alloc: Global, program: &Program) -> Result<DoneSet, AllocError>
        ensures sound { IfOk result (λ done. AreDone done (world_of self.now.past.world).shared) }
        ensures whole { IfOk result (λ done. (class : ℕ) → class < length program.now.classes
            → (world_of self.now.past.world).shared.states class ≡ Initialized → is_done done class ≡ true) }
    {
        initialized_in(alloc, &self.world, program.given_count())
    }

    /// Whether a stretch begins where its thread is, and the classes are initialized that it takes to be.
    fn fits(&self, thread: u32, stretch: &Stretch<O>) -> bool
        requires { thread < length self.now.past.world.threads }
        ensures yes { result ≡ true → Fits (world_of self.now.past.world) thread stretch.now }
        ensures no { result ≡ false → ¬ Fits (world_of self.now.past.world) thread stretch.now }
    {
        if !self.world.has_frames(thread, stretch.from()) {
            return false;
        }
        all_done(&self.world, stretch.done())
    }

    /// Counts `count` steps that lead a thread to where it lands, and one more where there is one.
    ///
    /// # Errors
    /// `AllocError` where memory is refused; nothing has changed then.
    fn count_steps(
        &mut self,
        alloc: Global,
        program: &Program,
        thread: u32,
        to: Landing,
        count: u64,
    ) -> Result<Commit, AllocError>
        requires program { program.now ≡ O.program }
        requires thread { thread < length self.old.past.world.threads }
        requires may { MayLand (world_of self.old.past.world) thread to count }
        requires most { count ≤ 1023 }
        requires below { steps_of self.old.past < self.old.past.limit }
        requires led { Run (program_of O.program) (world_of self.old.past.world) (replicate count thread)
            (landed (world_of self.old.past.world) thread to count) }
        ensures answer { IfOk result (λ a. IsCounted O.program self.old.past thread count
            (landed (world_of self.old.past.world) thread to count) a self.new.past) }
        ensures goes_on { PagesGoOn self.old self.new }
        ensures memory { OnErr result (Same self.old.past self.new.past) }
    {
        self.journal.reserve(1)?;
        let turn = land(alloc, &mut self.world, program, thread, to, count)?;
        let more = counted(turn, count);
        add_some(&mut self.journal, thread, more);
        self.steps += more;
        Ok(answer_of(turn, count))
    }

    /// The steps of a stretch, and one more where there is one.
    ///
    /// # Errors
    /// `AllocError` where memory is refused; nothing has changed then.
    pub fn commit(
        &mut self,
        alloc: Global,
        program: &Program,
        thread: u32,
        stretch: Stretch<O>,
    ) -> Result<Commit, AllocError>
        requires program { program.now ≡ O.program }
        requires thread { thread < length self.old.past.world.threads }
        ensures answer { IfOk result (λ a. IsCommit O.program self.old.past thread stretch a self.new.past) }
        ensures goes_on { PagesGoOn self.old self.new }
        ensures memory { OnErr result (Same self.old.past self.new.past) }
    {
        let _world = self.world();
        if self.is_full() {
            return Ok(Commit::Full);
        }
        if !self.fits(thread, &stretch) {
            return Ok(Commit::Stale);
        }
        let count = stretch.count();
        let to = Landing::Whole(stretch.into_end());
        self.count_steps(alloc, program, thread, to, count)
    }

    /// The innermost frame of a thread above its highest initialization, if there is one.
    ///
    /// # Errors
    /// `AllocError` where memory is refused.
    pub fn front(&self, alloc: Global, thread: u32) -> Result<Option<Frame>, AllocError>
        requires { thread < length self.now.past.world.threads }
        ensures { IfOk result (λ f. f ≡ front_of (world_of self.now.past.world) thread) }
    {
        self.world.front(alloc, thread)
    }

    /// Whether a run begins at the innermost frame of its thread, and the classes that it asked for are initialized.
    fn fits_front(&self, thread: u32, run: &FrontRun<O>) -> bool
        requires { thread < length self.now.past.world.threads }
        ensures yes { result ≡ true → FitsFront (world_of self.now.past.world) thread (Some run.now) }
        ensures no { result ≡ false → ¬ FitsFront (world_of self.now.past.world) thread (Some run.now) }
    {
        if !self.world.has_front(thread, run.from()) {
            return false;
        }
        all_initialized(&self.world, run.asked())
    }

    /// The steps of a run on a front, and one more where there is one.
    ///
    /// # Errors
    /// `AllocError` where memory is refused; nothing has changed then.
    fn commit_on_front(
        &mut self,
        alloc: Global,
        program: &Program,
        thread: u32,
        run: FrontRun<O>,
    ) -> Result<Commit, AllocError>
        requires program { program.now ≡ O.program }
        requires thread { thread < length self.old.past.world.threads }
        requires few { run.count ≤ 1023 }
        ensures answer { IfOk result (λ a. IsFrontCommit O.program self.old.past thread (Some run) a self.new.past) }
        ensures goes_on { PagesGoOn self.old self.new }
        ensures memory { OnErr result (Same self.old.past self.new.past) }
    {
        let _world = self.world();
        if self.is_full() {
            return Ok(Commit::Full);
        }
        if !self.fits_front(thread, &run) {
            return Ok(Commit::Stale);
        }
        let count = run.count();
        let to = Landing::Top(run.into_top());
        self.count_steps(alloc, program, thread, to, count)
    }

    /// One step of a thread, where there is one.
    ///
    /// # Errors
    /// `AllocError` where memory is refused; nothing has changed then.
    fn commit_none(
        &mut self,
        alloc: Global,
        program: &Program,
        thread: u32,
    ) -> Result<Commit, AllocError>
        requires program { program.now ≡ O.program }
        requires thread { thread < length self.old.past.world.threads }
        ensures answer { IfOk result (λ a. IsFrontCommit O.program self.old.past thread None a self.new.past) }
        ensures goes_on { PagesGoOn self.old self.new }
        ensures memory { OnErr result (Same self.old.past self.new.past) }
    {
        let _world = self.world();
        if self.is_full() {
            return Ok(Commit::Full);
        }
        let none = Frames {
            thread,
            segment: None,
            levels: None,
        };
        self.count_steps(alloc, program, thread, Landing::Whole(none), 0)
    }

    /// The steps of a stretch on a front, if there is one, and one more where there is one.
    ///
    /// # Errors
    /// `AllocError` where memory is refused; nothing has changed then.
    pub fn commit_front(
        &mut self,
        alloc: Global,
        program: &Program,
        thread: u32,
        made: Option<FrontStretch<O>>,
    ) -> Result<Commit, AllocError>
        requires program { program.now ≡ O.program }
        requires thread { thread < length self.old.past.world.threads }
        ensures answer { IfOk result (λ a. IsFrontCommit O.program self.old.past thread made a self.new.past) }
        ensures goes_on { PagesGoOn self.old self.new }
        ensures memory { OnErr result (Same self.old.past self.new.past) }
    {
        match made {
            Some(stretch) => self.commit_on_front(alloc, program, thread, stretch.into_run()),
            None => self.commit_none(alloc, program, thread),
        }
    }

    /// Puts frames in the place of a thread's innermost one, to which so many steps lead.
    ///
    /// # Errors
    /// `AllocError` where memory is refused; nothing has changed then.
    fn take_steps(
        &mut self,
        alloc: Global,
        thread: u32,
        to: Segment,
        count: u64,
    ) -> Result<(), AllocError>
        requires thread { thread < length self.old.past.world.threads }
        requires front { (f : Held) × (front_of (world_of self.old.past.world) thread ≡ Some f) }
        requires room { steps_of self.old.past + count < self.old.past.limit + 1024 }
        requires led { Run (program_of O.program) (world_of self.old.past.world) (replicate count thread)
            (with_top (world_of self.old.past.world) thread (frames_of to)) }
        ensures grew { OnOk result (Grew self.old.past thread
            (with_top (world_of self.old.past.world) thread (frames_of to)) count self.new.past) }
        ensures goes_on { PagesGoOn self.old self.new }
        ensures memory { OnErr result (Same self.old.past self.new.past) }
    {
        self.journal.reserve(1)?;
        let under = put_in(alloc, &mut self.world, thread, to)?;
        drop(under);
        add_some(&mut self.journal, thread, count);
        self.steps += count;
        Ok(())
    }

    /// The steps of a run on a front, and no other.
    ///
    /// # Errors
    /// `AllocError` where memory is refused; nothing has changed then.
    pub(crate) fn commit_run(
        &mut self,
        alloc: Global,
        thread: u32,
        run: FrontRun<O>,
    ) -> Result<Commit, AllocError>
        requires { thread < length self.old.past.world.threads }
        ensures answer { IfOk result (λ a. IsRunCommit self.old.past thread run a self.new.past) }
        ensures goes_on { PagesGoOn self.old self.new }
        ensures memory { OnErr result (Same self.old.past self.new.past) }
    {
        let _world = self.world();
        let count = run.count();
        if !self.has_room(count) {
            return Ok(Commit::Full);
        }
        if !self.fits_front(thread, &run) {
            return Ok(Commit::Stale);
        }
        match self.take_steps(alloc, thread, run.into_top(), count) {
            Ok(()) => Ok(Commit::Moved),
            Err(error) => Err(error),
        }
    }

    /// How many bytes of what was printed have gone out.
    pub fn sent(&self) -> u128
        ensures is { result ≡ self.now.sent }
        ensures within { self.now.sent ≤ length (printed_text self.now) }
    {
        text_length(self.world.printed(), self.prints) + self.bytes as u128
    }

    /// Sends what was printed and has not gone out.
    ///
    /// # Errors
    /// `SinkFault` where the sink failed; what went out before counts as sent.
    pub fn send<S: Sink>(&mut self, sink: &mut S) -> Result<(), SinkFault>
        ensures past { self.new.past ≡ self.old.past }
        ensures sends { SendsOn (printed_text self.old) self.old.sent self.new.sent (S.got sink.old) (S.got sink.new) }
        ensures all { OnOk result (self.new.sent ≡ length (printed_text self.old)) }
        ensures part { OnOk result (self.new.part ≡ 0) }
        ensures failed { OnErr result (S.failures sink.new ≢ S.failures sink.old) }
        ensures well { OnOk result (S.failures sink.new ≡ S.failures sink.old) }
    {
        let (prints, bytes, whole) = send_further(
            self.world.printed(),
            self.prints,
            self.bytes,
            sink,
        );
        self.prints = prints;
        self.bytes = bytes;
        if whole { Ok(()) } else { Err(SinkFault) }
    }

    /// How many steps the journal may still have.
    pub(crate) fn room(&self) -> u64
        ensures bounded { steps_of self.now.past + result < self.now.past.limit + 1024 }
        ensures whole { self.now.past.limit ≤ steps_of self.now.past + result }
    {
        most_steps(self.limit.saturating_sub(self.steps))
    }

    /// Runs one thread on in the world itself for a slice, as long as it has a step. It answers how many steps there
    /// were.
    ///
    /// # Errors
    /// `AllocError` where memory is refused.
    pub(crate) fn run_on(
        self,
        alloc: Global,
        program: &Program,
        table: &mut StepTable,
        thread: u32,
        slice: Slice,
    ) -> Result<(Book<O>, u64), AllocError>
        requires { CanRunOn O.program program.now self.past thread slice.steps table.old }
        ensures keeps { OnOk result (KeepsSteps program.now table.new) }
        ensures on { IfOk result (λ r. RunsOn thread self.past r.0.past r.1) }
        ensures sent { IfOk result (λ r. r.0.sent ≡ self.sent) }
        ensures part { IfOk result (λ r. r.0.part ≡ self.part) }
        ensures most { IfOk result (λ r. r.1 ≤ slice.steps) }
    {
        let Book {
            world,
            journal,
            steps: before,
            limit,
            prints,
            bytes,
            of: _,
        } = self;
        let mut world = world;
        let mut journal = journal;
        match run_in(
            alloc,
            program,
            &mut world,
            &mut journal,
            table,
            thread,
            slice,
        ) {
            Ok(made) => Ok((
                Book {
                    world,
                    journal,
                    steps: before + made,
                    limit,
                    prints,
                    bytes,
                    of: PhantomData,
                },
                made,
            )),
            Err(error) => Err(error),
        }
    }
}

/// Which of the first classes are initialized in a world.
fn initialized_in(alloc: Global, world: &World, count: u32) -> Result<DoneSet, AllocError>
    requires { count ≤ 65535 }
    ensures sound { IfOk result (λ done. AreDone done (world_of world.now).shared) }
    ensures whole { IfOk result (λ done. (class : ℕ) → class < count
        → (world_of world.now).shared.states class ≡ Initialized → is_done done class ≡ true) }
{
    let mut flags = Vec::new(alloc);
    for class in 0..count {
        flags.push(world.is_initialized(class))?;
    }
    Ok(DoneSet::of_flags(flags))
}
