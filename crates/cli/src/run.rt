//! One command, from its words to its exit status.
ghost use Rattle.std.specs.Prelude.{◌≡◌, ◌≢◌, ◌≤◌, ◌⊎◌, true, IfErr, OnOk};
ghost use Rattle.command_line.specs.Files.{files_of};
ghost use Rattle.command_line.specs.Requests.{texts};
ghost use Rattle.init_engine.specs.Schedules.{AreRuns, schedule_of};
ghost use Rattle.init_engine.specs.Turns.{world_of};
ghost use Rattle.cli.specs.Done.{AskFor, DidWords, HasEndedByTurns, HasEndedWithJournal, HoldsWithLists};
ghost use Rattle.cli.specs.Done.{IsAsked, IsDone, IsWrittenTo};
ghost use Rattle.cli.specs.Journaled.{IsOutcome};
ghost use Rattle.cli.specs.Left.{HasLeft, WordsHaveLeft};
ghost use Rattle.cli.specs.Outputs.{IsApart};
ghost use Rattle.cli.specs.CommandFault.{refusal_status};
ghost use Rattle.cli.specs.Running.{IsCutShort, IsOfRun};
ghost use Rattle.cli.specs.steps.Left.{LeavesFile, LeavesJournal, LeavesRun};
ghost use Rattle.cli.specs.steps.Lists.{AreGivenAs};
ghost use Rattle.cli.specs.Status.{IsOver, code_of, run_status};

use crate::by_threads::{Journaled, run_by_threads};
use crate::files::put;
use crate::image_replay::replayed;
use crate::image_run::ImageStart;
use crate::lazy::LazyStart;
use crate::lists::{Given, names, words_given};
use crate::meanings::{Errors, Voice};
use crate::outputs::{overwritten, overwritten_list};
use crate::standing::{tell_image_stacks, tell_lazy_stacks, tell_limit, told_of};
use crate::telling::{
    refuse, tell_audit, tell_built, tell_done, tell_endings, tell_inspected, tell_no_files,
    tell_overwritten, tell_replay, tell_report, tell_words,
};
use crate::untold::tell_untold;
use crate::{
    CommandFault, CutShort, Files, Lazy, Ran, Replay, Request, Run, Status, Unwatched, Watch,
    auditing, explaining, image_build, image_run, inspecting, lazy, line, renewing, reporting,
    run_world, status_of,
};
use init_engine::World;
use journal::Journal;
use object_graph::Image;
use program::Program;
use std::alloc::Global;
use std::io::Write;
use std::sync::Wait;
use std::thread::Threads;

/// Does one command for the words after the program's name, and answers the exit status and standard
/// output back.
///
/// - 0: done; all threads of a run returned. Help that was asked for is 0 too.
/// - 1: refused. Standard error gets `preinit: ` and the refusal's text.
/// - 2: the words are no command, or name a file for output that they name for input. Standard error gets what is wrong
///   with them. No file is read.
/// - 3: a file or standard output failed, told as a refusal is.
/// - 4: stuck; 5: the limit was reached with a thread that still has a step; 6: all threads ended,
///   and not all returned.
///
/// With 2 nothing went to standard output, and with 1 nothing but whole lines that a run printed before memory or a
/// thread was refused. While a run goes on it gets what is printed, and after it standard error a line for each
/// thread, but none where standard output failed, which ends the run. With `report` it gets the report,
/// and with `build` nothing: the image goes to its file. A failure of standard error is ignored.
pub fn command<R: Threads + Wait + Sync, F: Files, W: Write + Send + Drop, E: Write>(
    rt: &R,
    alloc: Global,
    words: &[&str],
    files: &mut F,
    out: W,
    errors: &mut E,
) -> (u8, W)
    ensures range { result.0 ≤ 6 }
    // Lines that a run sent before memory or a thread was refused cannot be taken back. It is a run that the words ask
    // for, of what the files hold that they name.
    ensures refused { result.0 ≡ 1 → (result.1 ≡ out) ⊎ AskFor (texts words.now) (F.holds files.old)
        (λ request. IsOfRun (F.holds files.old) request (W.contents out) (W.contents result.1)) }
    ensures words { result.0 ≡ 2 → (result.1 ≡ out) × (F.holds files.new ≡ F.holds files.old) }
    // Words that ask for neither a request nor help end it with 2, or with 1 where memory was refused. With 2 they ask
    // for nothing, or for a request whose outputs may be other files of it.
    ensures asked { (status : Status) → result.0 ≡ code_of status → IsAsked (texts words.now) status }
    // With 1 no file is changed, but for an output that was written before memory was refused: it holds what the words
    // ask for. With 3 no file is changed but those that they name for output.
    ensures left { (status : Status) → result.0 ≡ code_of status
        → WordsHaveLeft (texts words.now) (F.holds files.old) (F.holds files.new) status }
    // With 0, 4, 5 and 6 what the words ask for is done.
    ensures done { (status : Status) → result.0 ≡ code_of status → IsOver status → DidWords (texts words.now)
        (F.holds files.old) (F.holds files.new) (W.contents out) (W.contents result.1) status }
{
    let CommandEnd {
        status,
        out,
        held: _,
    } = command_holding(rt, alloc, words, files, out, errors, &Unwatched);
    (status, out)
}

/// What a command holds at its end: what ran, which takes time to let go of piece by piece.
#[derive(Drop)]
pub enum Held {
    Nothing,
    Program(Program),
    Image(Image),
}

/// How a command ended.
pub struct CommandEnd<W> {
    /// The exit status.
    pub status: u8,
    /// Standard output.
    pub out: W,
    /// What the command still holds, for a caller that ends with it.
    pub held: Held,
}

/// Does the same as `command`, and answers what ran too. A build tells how far it has come.
pub fn command_holding<
    R: Threads + Wait + Sync,
    F: Files,
    W: Write + Send + Drop,
    E: Write,
    H: Watch + Sync,
>(
    rt: &R,
    alloc: Global,
    words: &[&str],
    files: &mut F,
    out: W,
    errors: &mut E,
    watch: &H,
) -> CommandEnd<W>
    ensures range { result.status ≤ 6 }
    ensures refused { result.status ≡ 1 → (result.out ≡ out) ⊎ AskFor (texts words.now) (F.holds files.old)
        (λ request. IsOfRun (F.holds files.old) request (W.contents out) (W.contents result.out)) }
    ensures words { result.status ≡ 2 → (result.out ≡ out) × (F.holds files.new ≡ F.holds files.old) }
    ensures asked { (status : Status) → result.status ≡ code_of status → IsAsked (texts words.now) status }
    ensures left { (status : Status) → result.status ≡ code_of status
        → WordsHaveLeft (texts words.now) (F.holds files.old) (F.holds files.new) status }
    ensures done { (status : Status) → result.status ≡ code_of status → IsOver status → DidWords (texts words.now)
        (F.holds files.old) (F.holds files.new) (W.contents out) (W.contents result.out) status }
{
    let (status, held, out) = do_words(rt, alloc, words, files, out, errors, watch);
    CommandEnd {
        status: status.code(),
        out,
        held,
    }
}

/// Does the command of the words, if they are one. Answers standard output back.
fn do_words<R: Threads + Wait + Sync, F: Files, W: Write + Send + Drop, E: Write, H: Watch + Sync>(
    rt: &R,
    alloc: Global,
    words: &[&str],
    files: &mut F,
    mut out: W,
    errors: &mut E,
    watch: &H,
) -> (Status, Held, W)
    ensures refused { result.0 ≡ Status.Refused → (result.2 ≡ out) ⊎ AskFor (texts words.now) (F.holds files.old)
        (λ request. IsOfRun (F.holds files.old) request (W.contents out) (W.contents result.2)) }
    ensures words { result.0 ≡ Status.Words → (result.2 ≡ out) × (F.holds files.new ≡ F.holds files.old) }
    ensures asked { IsAsked (texts words.now) result.0 }
    ensures left { WordsHaveLeft (texts words.now) (F.holds files.old) (F.holds files.new) result.0 }
    ensures done { IsOver result.0 → DidWords (texts words.now) (F.holds files.old) (F.holds files.new)
        (W.contents out) (W.contents result.2) result.0 }
{
    match line(alloc, words) {
        Ok(asked) => match overwritten_list(&asked, files) {
            Some(clash) => (tell_overwritten(clash, errors), Held::Nothing, out),
            None => do_asked(rt, alloc, asked, files, out, errors, watch),
        },
        Err(fault) => {
            let mut voice = Voice::of_words(alloc, words, errors);
            (tell_words(&fault, &mut out, &mut voice), Held::Nothing, out)
        }
    }
}

/// Does the command of a request whose words may name lists. Answers standard output back.
fn do_asked<R: Threads + Wait + Sync, F: Files, W: Write + Send + Drop, E: Write, H: Watch + Sync>(
    rt: &R,
    alloc: Global,
    asked: Request<'_>,
    files: &mut F,
    out: W,
    errors: &mut E,
    watch: &H,
) -> (Status, Held, W)
    ensures refused { result.0 ≡ Status.Refused → (result.2 ≡ out) ⊎ HoldsWithLists (F.holds files.old) asked.entry
        (λ request. IsOfRun (F.holds files.old) request (W.contents out) (W.contents result.2)) }
    ensures words { result.0 ≡ Status.Words → (result.2 ≡ out) × (F.holds files.new ≡ F.holds files.old) }
    ensures left { (F.holds files.new ≡ F.holds files.old) ⊎ HoldsWithLists (F.holds files.old) asked.entry
        (λ request. HasLeft (F.holds files.old) (F.holds files.new) request result.0) }
    ensures done { IsOver result.0 → HoldsWithLists (F.holds files.old) asked.entry (λ request. IsApart request
        × IsDone (F.holds files.old) (F.holds files.new) (W.contents out) (W.contents result.2) request result.0) }
{
    match words_given(alloc, asked.files(), files) {
        Ok(given) => {
            let given = given.as_slice();
            do_listed(
                rt,
                alloc,
                Listed { asked, given },
                files,
                out,
                errors,
                watch,
            )
        }
        Err(refusal) => (
            refuse_asked(alloc, &asked, &refusal, errors),
            Held::Nothing,
            out,
        ),
    }
}

/// Tells a refusal of what a request names.
fn refuse_asked<E: Write>(
    alloc: Global,
    asked: &Request<'_>,
    refusal: &CommandFault,
    errors: &mut E,
) -> Status
    ensures { result ≡ refusal_status refusal.now }
{
    let mut voice = Voice::of(alloc, asked, errors);
    refuse(refusal, &mut voice)
}

/// A request, and what its words for class files stand for.
struct Listed<'a> {
    asked: Request<'a>,
    given: &'a [Given<'a>],
}

/// Does the command of a request whose words for class files stand for these. Answers standard output back.
fn do_listed<
    'a,
    R: Threads + Wait + Sync,
    F: Files,
    W: Write + Send + Drop,
    E: Write,
    H: Watch + Sync,
>(
    rt: &R,
    alloc: Global,
    listed: Listed<'a>,
    files: &mut F,
    out: W,
    errors: &mut E,
    watch: &H,
) -> (Status, Held, W)
    requires { AreGivenAs (F.holds files.old) (texts (files_of listed.asked)) listed.given.now }
    ensures refused { result.0 ≡ Status.Refused → (result.2 ≡ out)
        ⊎ HoldsWithLists (F.holds files.old) listed.entry.asked
        (λ request. IsOfRun (F.holds files.old) request (W.contents out) (W.contents result.2)) }
    ensures words { result.0 ≡ Status.Words → (result.2 ≡ out) × (F.holds files.new ≡ F.holds files.old) }
    ensures left { (F.holds files.new ≡ F.holds files.old) ⊎ HoldsWithLists (F.holds files.old) listed.entry.asked
        (λ request. HasLeft (F.holds files.old) (F.holds files.new) request result.0) }
    ensures done { IsOver result.0 → HoldsWithLists (F.holds files.old) listed.entry.asked (λ request. IsApart request
        × IsDone (F.holds files.old) (F.holds files.new) (W.contents out) (W.contents result.2) request result.0) }
{
    let Listed { asked, given } = listed;
    match names(alloc, given) {
        Ok(names) => {
            let request = asked.with_files(names);
            do_given(rt, alloc, &request, files, out, errors, watch)
        }
        Err(_) => {
            let status = refuse_asked(alloc, &asked, &CommandFault::Memory, errors);
            (status, Held::Nothing, out)
        }
    }
}

/// Does the command of a request whose class files are all named. Answers standard output back.
#[tactic(auto, using(crate::proofs::LeftLemmas::left_before, crate::proofs::LeftLemmas::unchanged))]
fn do_given<R: Threads + Wait + Sync, F: Files, W: Write + Send + Drop, E: Write, H: Watch + Sync>(
    rt: &R,
    alloc: Global,
    request: &Request<'_>,
    files: &mut F,
    out: W,
    errors: &mut E,
    watch: &H,
) -> (Status, Held, W)
    ensures refused { result.0 ≡ Status.Refused → (result.2 ≡ out)
        ⊎ IsOfRun (F.holds files.old) request.now (W.contents out) (W.contents result.2) }
    ensures words { result.0 ≡ Status.Words → (result.2 ≡ out) × (F.holds files.new ≡ F.holds files.old) }
    ensures left { HasLeft (F.holds files.old) (F.holds files.new) request.now result.0 }
    ensures done { IsOver result.0 → IsApart request.now × IsDone (F.holds files.old) (F.holds files.new)
        (W.contents out) (W.contents result.2) request.now result.0 }
{
    match overwritten(request, files) {
        Some(clash) => (tell_overwritten(clash, errors), Held::Nothing, out),
        None => {
            tell_no_files(request, errors);
            do_and_tell(rt, alloc, request, files, out, errors, watch)
        }
    }
}

/// Does the command of a request, and tells what is left to be told of a refusal. Answers standard output back.
fn do_and_tell<
    R: Threads + Wait + Sync,
    F: Files,
    W: Write + Send + Drop,
    E: Write,
    H: Watch + Sync,
>(
    rt: &R,
    alloc: Global,
    request: &Request<'_>,
    files: &mut F,
    out: W,
    errors: &mut E,
    watch: &H,
) -> (Status, Held, W)
    requires { IsApart request.now }
    ensures refused { result.0 ≡ Status.Refused → (result.2 ≡ out)
        ⊎ IsOfRun (F.holds files.old) request.now (W.contents out) (W.contents result.2) }
    ensures words { result.0 ≢ Status.Words }
    ensures left { HasLeft (F.holds files.old) (F.holds files.new) request.now result.0 }
    ensures done { IsOver result.0 → IsDone (F.holds files.old) (F.holds files.new) (W.contents out)
        (W.contents result.2) request.now result.0 }
{
    let mut voice = Voice::of(alloc, request, errors);
    let (status, held, out) = do_request(rt, alloc, request, files, out, &mut voice, watch);
    if let Some(untold) = voice.into_untold() {
        tell_untold(alloc, &untold, request, files, errors);
    }
    (status, held, out)
}

/// Does the command of a request. Answers standard output back.
#[tactic(auto, using(crate::proofs::LeftLemmas::unchanged, crate::proofs::LeftLemmas::done_left, crate::proofs::LeftLemmas::page_of_report))]
fn do_request<
    R: Threads + Wait + Sync,
    F: Files,
    W: Write + Send + Drop,
    E: Errors,
    H: Watch + Sync,
>(
    rt: &R,
    alloc: Global,
    request: &Request<'_>,
    files: &mut F,
    mut out: W,
    errors: &mut E,
    watch: &H,
) -> (Status, Held, W)
    requires { IsApart request.now }
    ensures refused { result.0 ≡ Status.Refused → (result.2 ≡ out)
        ⊎ IsOfRun (F.holds files.old) request.now (W.contents out) (W.contents result.2) }
    ensures words { result.0 ≢ Status.Words }
    ensures left { HasLeft (F.holds files.old) (F.holds files.new) request.now result.0 }
    ensures done { IsOver result.0 → IsDone (F.holds files.old) (F.holds files.new) (W.contents out)
        (W.contents result.2) request.now result.0 }
{
    match request {
        Request::Audit(words) => {
            let status = tell_audit(auditing::run(alloc, words, files), &mut out, errors);
            (status, Held::Nothing, out)
        }
        Request::Build(words) => {
            let built = image_build::run(rt, alloc, words, files, watch);
            let status = tell_built(alloc, built, watch, errors);
            (status, Held::Nothing, out)
        }
        Request::Explain(words) => {
            let text = explaining::run(rt, alloc, words, files, watch);
            let status = tell_report(alloc, text, &mut out, watch, errors);
            (status, Held::Nothing, out)
        }
        Request::Inspect(words) => {
            let status = tell_inspected(inspecting::run(alloc, words, files), &mut out, errors);
            (status, Held::Nothing, out)
        }
        Request::Lazy(words) => {
            let (status, held) = run_lazily(alloc, words, files, &mut out, errors);
            (status, held, out)
        }
        Request::Renew(words) => {
            let status = tell_done(renewing::run(alloc, words, files), errors);
            (status, Held::Nothing, out)
        }
        Request::Report(words) => {
            let report = reporting::run(rt, alloc, words, files, watch);
            let status = tell_report(alloc, report, &mut out, watch, errors);
            (status, Held::Nothing, out)
        }
        Request::Replay(words) => {
            let (status, held) = replay_image(alloc, words, files, &mut out, errors);
            (status, held, out)
        }
        Request::Run(words) => run_image(rt, alloc, words, files, out, errors),
    }
}

/// Does the command `lazy`.
fn run_lazily<F: Files, W: Write, E: Errors>(
    alloc: Global,
    words: &Lazy<'_>,
    files: &mut F,
    out: &mut W,
    errors: &mut E,
) -> (Status, Held)
    ensures refused { result.0 ≡ Status.Refused → (out.new ≡ out.old)
        ⊎ IsOfRun (F.holds files.old) (Request.Lazy words.now) (W.contents out.old) (W.contents out.new) }
    ensures words { result.0 ≢ Status.Words }
    ensures same { F.holds files.new ≡ F.holds files.old }
    ensures done { IsOver result.0 → IsDone (F.holds files.old) (F.holds files.new) (W.contents out.old)
        (W.contents out.new) (Request.Lazy words.now) result.0 }
{
    match lazy::begin(alloc, words, files) {
        Ok(LazyStart { program, world }) => {
            let status = run_from(alloc, &program, world, words, out, errors);
            (status, Held::Program(program))
        }
        Err(refusal) => (refuse(&refusal, errors), Held::Nothing),
    }
}

/// Does the command `run`.
#[tactic(auto, using(crate::proofs::LeftLemmas::unchanged))]
fn run_image<R: Threads + Wait + Sync, F: Files, W: Write + Send + Drop, E: Errors>(
    rt: &R,
    alloc: Global,
    words: &Run<'_>,
    files: &mut F,
    out: W,
    errors: &mut E,
) -> (Status, Held, W)
    ensures refused { result.0 ≡ Status.Refused → (result.2 ≡ out)
        ⊎ IsOfRun (F.holds files.old) (Request.Run words.now) (W.contents out) (W.contents result.2) }
    ensures words { result.0 ≢ Status.Words }
    ensures left { HasLeft (F.holds files.old) (F.holds files.new) (Request.Run words.now) result.0 }
    ensures done { IsOver result.0 → IsDone (F.holds files.old) (F.holds files.new) (W.contents out)
        (W.contents result.2) (Request.Run words.now) result.0 }
{
    match image_run::start(rt, alloc, words, files) {
        Ok(start) => run_and_tell(rt, alloc, start, words, files, out, errors),
        Err(refusal) => (refuse(&refusal, errors), Held::Nothing, out),
    }
}

/// Runs the start of an image as the words say, and tells how its threads ended.
#[tactic(auto, using(crate::proofs::LeftLemmas::run_unchanged))]
fn run_and_tell<R: Threads + Wait + Sync, F: Files, W: Write + Send + Drop, E: Errors>(
    rt: &R,
    alloc: Global,
    start: ImageStart,
    words: &Run<'_>,
    files: &mut F,
    out: W,
    errors: &mut E,
) -> (Status, Held, W)
    ensures refused { result.0 ≡ Status.Refused → IsCutShort start.program (world_of start.world)
        (W.contents out) (W.contents result.2) CutShort.Memory }
    ensures words { result.0 ≢ Status.Words }
    ensures left { LeavesRun (F.holds files.old) (F.holds files.new) words.now start.program (world_of start.world)
        result.0 }
    ensures done { IsOver result.0 → HasEndedWithJournal (F.holds files.old) (F.holds files.new) words.now
        start.program (world_of start.world) (W.contents out) (W.contents result.2) result.0 }
{
    let ImageStart {
        program,
        world,
        again,
    } = start;
    let (outcome, out) = run_as_said(rt, alloc, &program, world, words, out);
    match outcome {
        Ok(ran) => {
            let status = tell_run_and_stacks(alloc, &program, again, words, &ran, files, errors);
            (status, Held::Program(program), out)
        }
        Err(refusal) => (refuse(&refusal, errors), Held::Program(program), out),
    }
}

/// Runs a world by turns or by threads. Answers the sink back.
fn run_as_said<R: Threads + Wait + Sync, W: Write + Send + Drop>(
    rt: &R,
    alloc: Global,
    program: &Program,
    world: World,
    words: &Run<'_>,
    mut out: W,
) -> (Result<Journaled, CommandFault>, W)
    ensures { IsOutcome words.now.turns words.now.limit program.now (world_of world) (W.contents out)
        (W.contents result.1) result.0 }
{
    if words.turns {
        let outcome = ran_by_turns(alloc, program, world, words.limit, &mut out);
        return (outcome, out);
    }
    run_by_threads(rt, alloc, program, world, words.limit, out)
}

/// Runs a world by turns.
fn ran_by_turns<W: Write>(
    alloc: Global,
    program: &Program,
    world: World,
    limit: u64,
    out: &mut W,
) -> Result<Journaled, CommandFault>
    ensures { IsOutcome true limit program.now (world_of world) (W.contents out.old) (W.contents out.new) result }
{
    match run_world(alloc, program, world, limit, out) {
        Ok(ran) => Ok(journaled(ran)),
        Err(CutShort::Memory) => Err(CommandFault::Memory),
        Err(CutShort::Device) => Err(CommandFault::Device),
    }
}

/// A run by turns, with its schedule as its journal.
fn journaled(ran: Ran) -> Journaled
    requires { AreRuns ran.schedule.items }
    ensures threads { result.threads.items ≡ ran.threads.items }
    ensures journal { result.journal ≡ ran.schedule.items }
    ensures status { result.status ≡ run_status ran.threads.items ran.rest }
{
    let Ran {
        threads,
        rest,
        schedule,
    } = ran;
    let status = status_of(threads.as_slice(), rest);
    Journaled {
        threads,
        status,
        journal: Journal::of(schedule),
    }
}

/// Tells how the threads of a run ended, writes its journal where the words ask for it, and tells where the threads
/// stand, if there is a world for that.
#[tactic(auto, using(crate::proofs::LeftLemmas::journal_left))]
fn tell_run_and_stacks<F: Files, E: Errors>(
    alloc: Global,
    program: &Program,
    again: Option<World>,
    words: &Run<'_>,
    ran: &Journaled,
    files: &mut F,
    errors: &mut E,
) -> Status
    requires { ran.now.status ≢ Status.Words }
    ensures words { result ≢ Status.Words }
    ensures told { IsOver result → result ≡ ran.now.status }
    ensures journal { LeavesJournal (F.holds files.old) (F.holds files.new) words.now.journal
        (schedule_of ran.now.journal) result }
{
    let status = tell_run(alloc, program, words, ran, files, errors);
    let runs = ran.journal.runs();
    let status = tell_limit(alloc, words.verbose, runs, status, errors);
    match told_of(words.stacks, words.verbose, ran.threads.as_slice()) {
        Some(told) => tell_image_stacks(alloc, program, again, told, runs, status, errors),
        None => status,
    }
}

/// Tells how the threads of a run ended, and writes its journal where the words ask for it.
#[tactic(auto, using(crate::proofs::LeftLemmas::of_journal))]
fn tell_run<F: Files, E: Errors>(
    alloc: Global,
    program: &Program,
    words: &Run<'_>,
    ran: &Journaled,
    files: &mut F,
    errors: &mut E,
) -> Status
    requires { ran.now.status ≢ Status.Words }
    ensures words { result ≢ Status.Words }
    ensures told { IsOver result → result ≡ ran.now.status }
    ensures journal { LeavesJournal (F.holds files.old) (F.holds files.new) words.now.journal
        (schedule_of ran.now.journal) result }
{
    let status = tell_endings(alloc, program, ran.threads.as_slice(), ran.status, errors);
    let Some(name) = words.journal else {
        return status;
    };
    match write_journal(alloc, name, &ran.journal, files) {
        Ok(()) => status,
        Err(refusal) => refuse(&refusal, errors),
    }
}

/// Writes a journal to a file.
fn write_journal<F: Files>(
    alloc: Global,
    name: &str,
    journal: &Journal,
    files: &mut F,
) -> Result<(), CommandFault>
    ensures written { OnOk result
        (IsWrittenTo (F.holds files.old) (F.holds files.new) name.now (schedule_of journal.now)) }
    ensures left { IfErr result
        (λ refusal. LeavesFile (F.holds files.old) (F.holds files.new) name.now (refusal_status refusal)) }
{
    let text = journal.text(alloc)?;
    put(alloc, name, text.as_slice(), files)
}

/// Does the command `replay`.
fn replay_image<F: Files, W: Write, E: Errors>(
    alloc: Global,
    words: &Replay<'_>,
    files: &mut F,
    out: &mut W,
    errors: &mut E,
) -> (Status, Held)
    ensures refused { result.0 ≡ Status.Refused → (out.new ≡ out.old)
        ⊎ IsOfRun (F.holds files.old) (Request.Replay words.now) (W.contents out.old) (W.contents out.new) }
    ensures words { result.0 ≢ Status.Words }
    ensures same { F.holds files.new ≡ F.holds files.old }
    ensures done { IsOver result.0 → IsDone (F.holds files.old) (F.holds files.new) (W.contents out.old)
        (W.contents out.new) (Request.Replay words.now) result.0 }
{
    match replayed(alloc, words, files) {
        Ok(replay) => {
            let status = tell_replay(alloc, words, &replay, out, errors);
            (status, Held::Image(replay.image))
        }
        Err(refusal) => (refuse(&refusal, errors), Held::Nothing),
    }
}

/// Runs a program from a world of it, and tells what it prints while it runs, and then how its threads ended.
fn run_from<W: Write, E: Errors>(
    alloc: Global,
    program: &Program,
    world: World,
    words: &Lazy<'_>,
    out: &mut W,
    errors: &mut E,
) -> Status
    ensures refused { result ≡ Status.Refused
        → IsCutShort program.now (world_of world) (W.contents out.old) (W.contents out.new) CutShort.Memory }
    ensures words { result ≢ Status.Words }
    ensures done { IsOver result → HasEndedByTurns program.now (world_of world) words.now.limit (W.contents out.old)
        (W.contents out.new) result }
{
    match run_world(alloc, program, world, words.limit, out) {
        Ok(ran) => tell_turns(alloc, program, words, &ran, errors),
        Err(CutShort::Memory) => refuse(&CommandFault::Memory, errors),
        Err(CutShort::Device) => refuse(&CommandFault::Device, errors),
    }
}

/// Tells how the threads of a run by turns ended, and where they stand, if the words ask for it.
fn tell_turns<E: Errors>(
    alloc: Global,
    program: &Program,
    words: &Lazy<'_>,
    ran: &Ran,
    errors: &mut E,
) -> Status
    requires { AreRuns ran.now.schedule.items }
    ensures words { result ≢ Status.Words }
    ensures done { IsOver result → result ≡ run_status ran.now.threads.items ran.now.rest }
{
    let threads = ran.threads.as_slice();
    let status = status_of(threads, ran.rest);
    let status = tell_endings(alloc, program, threads, status, errors);
    let runs = ran.schedule.as_slice();
    let status = tell_limit(alloc, words.verbose, runs, status, errors);
    match told_of(words.stacks, words.verbose, threads) {
        Some(told) => {
            tell_lazy_stacks(alloc, program, words.entries, told, runs, status, errors)
        }
        None => status,
    }
}
