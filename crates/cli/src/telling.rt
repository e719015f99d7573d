//! What a command tells on standard output and standard error.
ghost use Rattle.std.specs.Prelude.{◌≡◌, ◌≢◌, ◌⊎◌, ℕ, List, IsErrAnd, IsOk, IsOkAnd};
ghost use Rattle.std.specs.Io.KnownBytes.{Appends};
ghost use Rattle.vm_state.specs.Output.{text_of};
ghost use Rattle.command_line.specs.Requests.{IsFaultOf};
ghost use Rattle.cli.specs.Done.{HasHelped, IsNoRequest};
ghost use Rattle.cli.specs.CommandFault.{refusal_status};
ghost use Rattle.cli.specs.Status.{IsOver, audit_status, replay_status};
ghost use Rattle.cli.specs.steps.Left.{status_of_done};

use crate::auditing::Audited;
use crate::meanings::Errors;
use crate::outputs::Clash;
use crate::running::send_seen;
use crate::standing::{Told, tell_replay_stacks, told_of};
use crate::status::status_of_replay;
use crate::{
    CommandFault, CutShort, ImageReplay, Replay, Request, Stage, Status, Watch, WordsFault,
    thread_lines,
};
use init_engine::Ending;
use program::Program;
use std::alloc::Global;
use std::io::Write;

/// Tells what a replay has shown.
pub(crate) fn tell_replay<W: Write, E: Errors>(
    alloc: Global,
    words: &Replay<'_>,
    replay: &ImageReplay,
    out: &mut W,
    errors: &mut E,
) -> Status
    // Nothing has gone out, or all that was printed.
    ensures refused { result ≡ Status.Refused → (W.contents out.new ≡ W.contents out.old)
        ⊎ Appends (W.contents out.old) (W.contents out.new) (text_of replay.now.seen.printed) }
    ensures words { result ≢ Status.Words }
    ensures done { IsOver result → (result ≡ replay_status replay.now.seen.threads.items)
        × Appends (W.contents out.old) (W.contents out.new) (text_of replay.now.seen.printed) }
{
    match send_seen(&replay.seen, out) {
        Ok(()) => tell_replay_threads(alloc, words, replay, errors),
        Err(CutShort::Memory) => refuse(&CommandFault::Memory, errors),
        Err(CutShort::Device) => refuse(&CommandFault::Device, errors),
    }
}

/// Tells how the threads of a replay ended, and where they stand, if the words ask for it.
fn tell_replay_threads<E: Errors>(
    alloc: Global,
    words: &Replay<'_>,
    replay: &ImageReplay,
    errors: &mut E,
) -> Status
    ensures words { result ≢ Status.Words }
    ensures done { IsOver result → result ≡ replay_status replay.now.seen.threads.items }
{
    let ImageReplay {
        image,
        journal,
        seen,
    } = replay;
    let threads = seen.threads.as_slice();
    let status = tell_endings(
        alloc,
        image.program(),
        threads,
        status_of_replay(threads),
        errors,
    );
    match told_of_replay(words, threads) {
        Some(told) => tell_replay_stacks(
            alloc,
            image,
            words.entries,
            told,
            journal.runs(),
            status,
            errors,
        ),
        None => status,
    }
}

/// What is told of where the threads of a replay stand, which have ended so.
fn told_of_replay(words: &Replay<'_>, threads: &[Ending]) -> Option<Told> {
    if words.at.is_some() {
        Some(Told::Variables)
    } else {
        told_of(words.stacks, words.verbose, threads)
    }
}

/// Tells how threads ended.
pub(crate) fn tell_endings<E: Errors>(
    alloc: Global,
    program: &Program,
    threads: &[Ending],
    status: Status,
    errors: &mut E,
) -> Status
    requires { status ≢ Status.Words }
    ensures words { result ≢ Status.Words }
    ensures done { IsOver result → result ≡ status }
{
    match thread_lines(alloc, program, threads) {
        Ok(lines) => {
            errors.tell(lines.as_str());
            status
        }
        Err(_) => refuse(&CommandFault::Memory, errors),
    }
}

/// Tells why a command that has nothing else to tell was refused, if it was.
pub(crate) fn tell_done<E: Errors>(done: Result<(), CommandFault>, errors: &mut E) -> Status
    ensures status { result ≡ status_of_done done }
    ensures words { result ≢ Status.Words }
    ensures done { IsOver result → (result ≡ Status.Done) × IsOk done }
{
    match done {
        Ok(()) => Status::Done,
        Err(refusal) => refuse(&refusal, errors),
    }
}

/// Tells that a build is over, and why it was refused, if it was.
pub(crate) fn tell_built<E: Errors, H: Watch>(
    alloc: Global,
    built: Result<(), CommandFault>,
    watch: &H,
    errors: &mut E,
) -> Status
    ensures status { result ≡ status_of_done built }
    ensures words { result ≢ Status.Words }
    ensures done { IsOver result → (result ≡ Status.Done) × IsOk built }
{
    watch.begin(Stage::Ended);
    match built {
        Ok(()) => {
            tell_summary(alloc, watch, errors);
            Status::Done
        }
        Err(refusal) => refuse_build(alloc, &refusal, watch, errors),
    }
}

/// Tells that a build is over, and what is to be told of it, or why there is none.
pub(crate) fn tell_report<W: Write, E: Errors, H: Watch>(
    alloc: Global,
    report: Result<Vec<u8>, CommandFault>,
    out: &mut W,
    watch: &H,
    errors: &mut E,
) -> Status
    ensures refused { result ≡ Status.Refused → (out.new ≡ out.old)
        × IsErrAnd report (λ refusal. refusal_status refusal ≡ Status.Refused) }
    ensures words { result ≢ Status.Words }
    ensures done { IsOver result → (result ≡ Status.Done)
        × IsOkAnd report (λ text. Appends (W.contents out.old) (W.contents out.new) text.items) }
{
    watch.begin(Stage::Ended);
    match report {
        Ok(report) => {
            let status = tell_text(report.as_slice(), out, errors);
            if matches!(status, Status::Done) {
                tell_summary(alloc, watch, errors);
            }
            status
        }
        Err(refusal) => refuse_build(alloc, &refusal, watch, errors),
    }
}

/// Tells what a build came to and what it took, if that is wanted.
fn tell_summary<E: Errors, H: Watch>(alloc: Global, watch: &H, errors: &mut E) {
    if let Some(line) = watch.summary(alloc) {
        errors.tell(line.as_str());
    }
}

/// Tells an audit, or why there is none.
pub(crate) fn tell_audit<W: Write, E: Errors>(
    audit: Result<Audited, CommandFault>,
    out: &mut W,
    errors: &mut E,
) -> Status
    ensures refused { result ≡ Status.Refused → out.new ≡ out.old }
    ensures words { result ≢ Status.Words }
    ensures done { IsOver result → IsOkAnd audit (λ audited. (result ≡ audit_status audited.is_clean)
        × Appends (W.contents out.old) (W.contents out.new) audited.text.items) }
{
    match audit {
        Ok(audited) => match tell_text(audited.text.as_slice(), out, errors) {
            Status::Done if !audited.is_clean => {
                errors.tell(audited.notes.as_str());
                Status::Ended
            }
            status => status,
        },
        Err(refusal) => refuse(&refusal, errors),
    }
}

/// Writes what an image holds, or why it is none.
pub(crate) fn tell_inspected<W: Write, E: Errors>(
    inspected: Result<Vec<u8>, CommandFault>,
    out: &mut W,
    errors: &mut E,
) -> Status
    ensures refused { result ≡ Status.Refused → out.new ≡ out.old }
    ensures words { result ≢ Status.Words }
    ensures done { IsOver result → (result ≡ Status.Done)
        × IsOkAnd inspected (λ text. Appends (W.contents out.old) (W.contents out.new) text.items) }
{
    match inspected {
        Ok(text) => tell_text(text.as_slice(), out, errors),
        Err(refusal) => refuse(&refusal, errors),
    }
}

/// Tells a refusal on standard error.
pub(crate) fn refuse<E: Errors>(refusal: &CommandFault, errors: &mut E) -> Status
    ensures { result ≡ refusal_status refusal.now }
{
    errors.refuse(refusal);
    refusal.status()
}

/// Tells why a build is refused; and what it was at, where memory was refused for it.
fn refuse_build<E: Errors, H: Watch>(
    alloc: Global,
    refusal: &CommandFault,
    watch: &H,
    errors: &mut E,
) -> Status
    ensures { result ≡ refusal_status refusal.now }
{
    if matches!(refusal, CommandFault::Memory)
        && let Some(work) = watch.work(alloc)
    {
        errors.refuse_memory(work.as_str());
    } else {
        errors.refuse(refusal);
    }
    refusal.status()
}

/// Tells what the words gave in place of a command: help on standard output, and what is wrong with
/// them on standard error.
#[tactic(auto, using(crate::proofs::DoneLemmas::help_asked))]
pub(crate) fn tell_words<W: Write, E: Errors>(
    fault: &WordsFault,
    out: &mut W,
    errors: &mut E,
) -> Status
    ensures refused { result ≡ Status.Refused → out.new ≡ out.old }
    ensures words { result ≡ Status.Words → out.new ≡ out.old }
    ensures asked { (words : List (List ℕ)) → IsFaultOf words fault.now → IsNoRequest words result }
    ensures done { IsOver result → HasHelped (W.contents out.old) (W.contents out.new) result }
{
    match fault {
        WordsFault::Memory => refuse(&CommandFault::Memory, errors),
        WordsFault::Help(text) => tell_text(text.as_bytes(), out, errors),
        WordsFault::Wrong(text) => {
            errors.wrong(text.as_str());
            Status::Words
        }
    }
}

/// Tells help or a report on standard output.
fn tell_text<W: Write, E: Errors>(text: &[u8], out: &mut W, errors: &mut E) -> Status
    ensures refused { result ≢ Status.Refused }
    ensures words { result ≢ Status.Words }
    ensures done { IsOver result → (result ≡ Status.Done)
        × Appends (W.contents out.old) (W.contents out.new) text.now }
{
    if out.write_all(text).is_err() || out.flush().is_err() {
        return refuse(&CommandFault::Device, errors);
    }
    Status::Done
}

/// Tells on standard error that words name a file for output that they name for something else too.
pub(crate) fn tell_overwritten<E: Write>(clash: Clash<'_>, errors: &mut E) -> Status
    ensures { result ≡ Status.Words }
{
    // A failure of standard error is ignored.
    let _ = match clash {
        Clash::Input(name) => writeln!(errors, "error: '{name}' is an input and the output"),
        Clash::Outputs(name) => writeln!(errors, "error: '{name}' is both outputs"),
    };
    let _ = errors.flush();
    Status::Words
}

/// Tells on standard error that a command of class files has none, if so.
pub(crate) fn tell_no_files<E: Write>(request: &Request<'_>, errors: &mut E) {
    let takes_none = matches!(
        request,
        Request::Inspect(_) | Request::Renew(_) | Request::Replay(_) | Request::Run(_)
    );
    if !takes_none && request.files().is_empty() {
        // A failure of standard error is ignored.
        let _ = writeln!(errors, "note: no FILE is given, so there are no classes");
        let _ = errors.flush();
    }
}
