//! Where the threads of a run stand that have not returned, on standard error: read from another run over its schedule.
ghost use Rattle.std.specs.Prelude.{◌≡◌, ◌≢◌, ◌⊎◌, IfErr, IsTrue};
ghost use Rattle.init_engine.specs.Schedules.{AreRuns};
ghost use Rattle.cli.specs.CommandFault.{refusal_status};
ghost use Rattle.cli.specs.Status.{IsOver};

use crate::meanings::Errors;
use crate::telling::refuse;
use crate::{CommandFault, Status, entries_of};
use image_reader::world;
use init_engine::{Ending, World};
use object_graph::Image;
use program::Program;
use stacks::{ThreadStacks, end_lines, stack_lines, stacks, variable_lines};
use std::alloc::{AllocError, Global};
use thread_runner::replay::ReplayFault;

/// What is told of where the threads of a run stand.
#[derive(Clone, Copy)]
pub(crate) enum Told {
    /// The stacks of all that have not returned.
    Stacks,
    /// The same, and what their innermost frames hold.
    Variables,
    /// The innermost place of each that has ended by a fault or an exception.
    Ends,
}

/// What is told of a run whose threads have ended so, where stacks are asked for, or all that there is to tell.
pub(crate) fn told_of(stacks: bool, is_verbose: bool, threads: &[Ending]) -> Option<Told> {
    if stacks {
        Some(Told::Stacks)
    } else if is_verbose && one_ended_badly(threads) {
        Some(Told::Ends)
    } else {
        None
    }
}

/// Whether a thread has ended by a fault or an exception.
fn one_ended_badly(threads: &[Ending]) -> bool {
    threads.iter().any(|ending| matches!(ending, Ending::Uncaught(_) | Ending::Faulted(_)))
}

/// Tells how many steps a run had that its limit ended, and the option that says how many it may have.
pub(crate) fn tell_limit<E: Errors>(
    alloc: Global,
    is_verbose: bool,
    runs: &[(u32, u64)],
    status: Status,
    errors: &mut E,
) -> Status
    requires { status ≢ Status.Words }
    ensures words { result ≢ Status.Words }
    ensures told { (result ≡ status) ⊎ (IsOver status × (result ≡ Status.Refused)) }
    ensures done { IsOver result → result ≡ status }
{
    if is_verbose && is_at_limit(status) {
        tell_lines(limit_line(alloc, runs), status, errors)
    } else {
        status
    }
}

/// Whether a run that ends a command so was ended by its limit.
fn is_at_limit(status: Status) -> bool
    ensures { IsTrue result → IsOver status }
{
    matches!(status, Status::Limit)
}

/// How many steps a run had that its limit ended, and the option.
fn limit_line(alloc: Global, runs: &[(u32, u64)]) -> Result<String, CommandFault>
    ensures { IfErr result (λ refusal. refusal_status refusal ≡ Status.Refused) }
{
    let mut steps = 0u64;
    for run in runs {
        steps = steps.saturating_add(run.1);
    }
    Ok(format!(in alloc;
        "the run was ended after {steps} steps: --limit N lets it have another number\n"
    )?)
}

/// Whether a run that ends a command so has threads that have not returned.
fn some_stand(status: Status) -> bool
    ensures { IsTrue result → IsOver status }
{
    matches!(status, Status::Stuck | Status::Limit | Status::Ended)
}

/// Tells where the threads of a run of class files stand, by its schedule, from the entries of a list.
pub(crate) fn tell_lazy_stacks<E: Errors>(
    alloc: Global,
    program: &Program,
    list: &str,
    told: Told,
    runs: &[(u32, u64)],
    status: Status,
    errors: &mut E,
) -> Status
    requires runs { AreRuns runs.now }
    requires status { status ≢ Status.Words }
    ensures words { result ≢ Status.Words }
    ensures done { IsOver result → result ≡ status }
{
    if some_stand(status) {
        tell_lines(
            lazy_stacks(alloc, program, list, told, runs),
            status,
            errors,
        )
    } else {
        status
    }
}

/// Tells where the threads of a run of an image stand, by its schedule, if there is the world of its start once more.
pub(crate) fn tell_image_stacks<E: Errors>(
    alloc: Global,
    program: &Program,
    again: Option<World>,
    told: Told,
    runs: &[(u32, u64)],
    status: Status,
    errors: &mut E,
) -> Status
    requires runs { AreRuns runs.now }
    requires status { status ≢ Status.Words }
    ensures words { result ≢ Status.Words }
    ensures told { (result ≡ status) ⊎ (IsOver status × (result ≡ Status.Refused)) }
{
    if some_stand(status)
        && let Some(first) = again
    {
        tell_lines(
            stacks_from(alloc, program, first, told, runs),
            status,
            errors,
        )
    } else {
        status
    }
}

/// Tells where the threads of a replay of an image stand, by its journal, from the entries of a list.
pub(crate) fn tell_replay_stacks<E: Errors>(
    alloc: Global,
    image: &Image,
    list: &str,
    told: Told,
    runs: &[(u32, u64)],
    status: Status,
    errors: &mut E,
) -> Status
    requires runs { AreRuns runs.now }
    requires status { status ≢ Status.Words }
    ensures words { result ≢ Status.Words }
    ensures done { IsOver result → result ≡ status }
{
    if some_stand(status) {
        tell_lines(
            replay_stacks(alloc, image, list, told, runs),
            status,
            errors,
        )
    } else {
        status
    }
}

/// Tells lines on a run that ends its command so.
fn tell_lines<E: Errors>(
    lines: Result<String, CommandFault>,
    status: Status,
    errors: &mut E,
) -> Status
    requires status { status ≢ Status.Words }
    requires refusal { IfErr lines (λ refusal. refusal_status refusal ≡ Status.Refused) }
    ensures words { result ≢ Status.Words }
    ensures told { (result ≡ status) ⊎ (result ≡ Status.Refused) }
{
    match lines {
        Ok(lines) => {
            errors.tell(lines.as_str());
            status
        }
        Err(refusal) => refuse(&refusal, errors),
    }
}

/// What is told after a schedule from the lazy start of the entries of a list.
fn lazy_stacks(
    alloc: Global,
    program: &Program,
    list: &str,
    told: Told,
    runs: &[(u32, u64)],
) -> Result<String, CommandFault>
    requires { AreRuns runs.now }
    ensures { IfErr result (λ refusal. refusal_status refusal ≡ Status.Refused) }
{
    let entries = entries_of(alloc, list)?;
    match World::lazy(alloc, program, entries.as_slice()) {
        Ok(first) => stacks_from(alloc, program, first, told, runs),
        Err(fault) => Err(CommandFault::of_entry(fault)),
    }
}

/// What is told after a schedule from the start of an image, from the entries of a list.
fn replay_stacks(
    alloc: Global,
    image: &Image,
    list: &str,
    told: Told,
    runs: &[(u32, u64)],
) -> Result<String, CommandFault>
    requires { AreRuns runs.now }
    ensures { IfErr result (λ refusal. refusal_status refusal ≡ Status.Refused) }
{
    let entries = entries_of(alloc, list)?;
    match world(alloc, image, entries.as_slice()) {
        Ok(first) => stacks_from(alloc, image.program(), first, told, runs),
        Err(fault) => Err(CommandFault::of_entry(fault)),
    }
}

/// What is told after a schedule from a world.
fn stacks_from(
    alloc: Global,
    program: &Program,
    first: World,
    told: Told,
    runs: &[(u32, u64)],
) -> Result<String, CommandFault>
    requires { AreRuns runs.now }
    ensures { IfErr result (λ refusal. refusal_status refusal ≡ Status.Refused) }
{
    match stacks(alloc, program, first, runs) {
        Ok(stacks) => Ok(lines_of(alloc, program, &stacks, told)?),
        Err(ReplayFault::Memory) => Err(CommandFault::Memory),
        Err(ReplayFault::Turn(line)) => Err(CommandFault::Turn(line)),
    }
}

/// What is told of stacks.
fn lines_of(
    alloc: Global,
    program: &Program,
    stacks: &ThreadStacks,
    told: Told,
) -> Result<String, AllocError> {
    match told {
        Told::Stacks => stack_lines(alloc, program, stacks),
        Told::Variables => {
            let mut text = stack_lines(alloc, program, stacks)?;
            text.push_str(&variable_lines(alloc, program, stacks)?)?;
            Ok(text)
        }
        Told::Ends => end_lines(alloc, program, stacks),
    }
}
