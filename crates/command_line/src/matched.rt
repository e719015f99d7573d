//! Requests from the matches of `clap`.
ghost use Rattle.std.specs.Prelude.{◌≡◌, ◌≢◌, IfOk, MatchResult, codes};
ghost use Rattle.clap.specs.Matches.{found_of};
ghost use Rattle.clap.specs.Simple.{app_of};
ghost use Rattle.clap.specs.Walk.{first_of, rows_of};
ghost use Rattle.command_line.specs.CommandLine.{preinit};
ghost use Rattle.command_line.specs.Requests.{Holds, HoldsAudit, HoldsBits, HoldsBuild, HoldsBuilding, HoldsExplain};
ghost use Rattle.command_line.specs.Requests.{HoldsFlag, HoldsInspect, HoldsLazy, HoldsNumber, HoldsRenew};
ghost use Rattle.command_line.specs.Requests.{HoldsReplay, HoldsReport, HoldsRun};
ghost use Rattle.command_line.specs.Requests.{IsFaultOf, IsLine, text_in, texts, values_of};
ghost use Rattle.command_line.specs.steps.Faults.{AskedByMatches, IsWhatHolds, SaysKind};

use crate::commands::program;
use crate::parsed::fault_of;
use crate::{
    Audit, Build, Building, Explain, Inspect, Lazy, Renew, Replay, Report, Request, Run, WordsFault,
};
use clap::error::ErrorKind;
use clap::{ArgMatches, Command};
use std::alloc::{AllocError, Global};

/// Parses the arguments after the program's name.
///
/// # Errors
/// `Help` where help or the version is requested, `Wrong` where the arguments request nothing, and `Memory`.
pub fn line<'a>(alloc: Global, words: &'a [&'a str]) -> Result<Request<'a>, WordsFault>
    // The request is of the command that the arguments name, with their values; and a fault is one of theirs.
    ensures { MatchResult result (IsLine (texts words.now)) (IsFaultOf (texts words.now)) }
{
    match program(alloc) {
        Ok(mut program) => request_in(alloc, &mut program, words),
        Err(_) => Err(WordsFault::Memory),
    }
}

fn request_in<'a>(
    alloc: Global,
    program: &mut Command<'a>,
    words: &'a [&'a str],
) -> Result<Request<'a>, WordsFault>
    requires { app_of program.old ≡ preinit }
    ensures { MatchResult result (IsLine (texts words.now)) (IsFaultOf (texts words.now)) }
{
    match program.try_get_matches_from_mut(words) {
        Ok(matches) => match command_of(alloc, &matches) {
            Ok(Some(request)) => Ok(request),
            Ok(None) => Err(missing(alloc, program)),
            Err(_) => Err(WordsFault::Memory),
        },
        Err(error) => Err(fault_of(alloc, &error)),
    }
}

/// The command that was matched.
fn command_of<'a>(
    alloc: Global,
    matches: &ArgMatches<'a>,
) -> Result<Option<Request<'a>>, AllocError>
    ensures { IfOk result (IsWhatHolds (AskedByMatches matches.now)) }
{
    match matches.subcommand() {
        Some((name, arguments)) => asked_of(alloc, name, arguments),
        None => Ok(None),
    }
}

/// What a command requests by its arguments.
fn asked_of<'a>(
    alloc: Global,
    name: &str,
    arguments: &ArgMatches<'a>,
) -> Result<Option<Request<'a>>, AllocError>
    ensures { IfOk result (IsWhatHolds (Holds name.now (rows_of (found_of arguments.now)))) }
{
    match name {
        "audit" => Ok(audit_of(alloc, arguments)?.map(Request::Audit)),
        "build" => Ok(build_of(alloc, arguments)?.map(Request::Build)),
        "explain" => Ok(explain_of(alloc, arguments)?.map(Request::Explain)),
        "inspect" => Ok(inspect_of(arguments).map(Request::Inspect)),
        "lazy" => Ok(lazy_of(alloc, arguments)?.map(Request::Lazy)),
        "renew" => Ok(renew_of(arguments).map(Request::Renew)),
        "replay" => Ok(replay_of(arguments).map(Request::Replay)),
        "report" => Ok(report_of(alloc, arguments)?.map(Request::Report)),
        "run" => Ok(run_of(arguments).map(Request::Run)),
        _ => Ok(None),
    }
}

fn build_of<'a>(alloc: Global, matches: &ArgMatches<'a>) -> Result<Option<Build<'a>>, AllocError>
    ensures { IfOk result (IsWhatHolds (HoldsBuild (rows_of (found_of matches.now)))) }
{
    let Some(image) = text_of(matches, "out") else {
        return Ok(None);
    };
    let Some(workers) = count_of(matches, "workers") else {
        return Ok(None);
    };
    match building_of(alloc, matches)? {
        Some(building) => Ok(Some(Build {
            image,
            report: text_of(matches, "report"),
            page: text_of(matches, "page"),
            building,
            workers,
        })),
        None => Ok(None),
    }
}

/// What the arguments of a build request.
fn building_of<'a>(
    alloc: Global,
    matches: &ArgMatches<'a>,
) -> Result<Option<Building<'a>>, AllocError>
    ensures { IfOk result (IsWhatHolds (HoldsBuilding (rows_of (found_of matches.now)))) }
{
    match number_of(matches, "budget") {
        Some(budget) => Ok(Some(Building {
            run_time: text_of(matches, "run_time"),
            build_time: text_of(matches, "build_time"),
            budget,
            files: files_of(alloc, matches)?,
            verbose: flag_of(matches, "verbose"),
        })),
        None => Ok(None),
    }
}

fn audit_of<'a>(alloc: Global, matches: &ArgMatches<'a>) -> Result<Option<Audit<'a>>, AllocError>
    ensures { IfOk result (IsWhatHolds (HoldsAudit (rows_of (found_of matches.now)))) }
{
    match text_of(matches, "entries") {
        Some(entries) => Ok(Some(Audit {
            entries,
            files: files_of(alloc, matches)?,
            verbose: flag_of(matches, "verbose"),
        })),
        None => Ok(None),
    }
}

fn explain_of<'a>(
    alloc: Global,
    matches: &ArgMatches<'a>,
) -> Result<Option<Explain<'a>>, AllocError>
    ensures { IfOk result (IsWhatHolds (HoldsExplain (rows_of (found_of matches.now)))) }
{
    match text_of(matches, "class") {
        Some(class) => match building_of(alloc, matches)? {
            Some(building) => Ok(Some(Explain { class, building })),
            None => Ok(None),
        },
        None => Ok(None),
    }
}

fn report_of<'a>(alloc: Global, matches: &ArgMatches<'a>) -> Result<Option<Report<'a>>, AllocError>
    ensures { IfOk result (IsWhatHolds (HoldsReport (rows_of (found_of matches.now)))) }
{
    match building_of(alloc, matches)? {
        Some(building) => Ok(Some(Report {
            page: text_of(matches, "page"),
            building,
        })),
        None => Ok(None),
    }
}

fn lazy_of<'a>(alloc: Global, matches: &ArgMatches<'a>) -> Result<Option<Lazy<'a>>, AllocError>
    ensures { IfOk result (IsWhatHolds (HoldsLazy (rows_of (found_of matches.now)))) }
{
    let Some(entries) = text_of(matches, "entries") else {
        return Ok(None);
    };
    let Some(limit) = number_of(matches, "limit") else {
        return Ok(None);
    };
    Ok(Some(Lazy {
        entries,
        limit,
        stacks: flag_of(matches, "stacks"),
        files: files_of(alloc, matches)?,
        verbose: flag_of(matches, "verbose"),
    }))
}

fn renew_of<'a>(matches: &ArgMatches<'a>) -> Option<Renew<'a>>
    ensures { IsWhatHolds (HoldsRenew (rows_of (found_of matches.now))) result }
{
    let new = text_of(matches, "out")?;
    let image = text_of(matches, "image")?;
    Some(Renew {
        new,
        image,
        verbose: flag_of(matches, "verbose"),
    })
}

fn inspect_of<'a>(matches: &ArgMatches<'a>) -> Option<Inspect<'a>>
    ensures { IsWhatHolds (HoldsInspect (rows_of (found_of matches.now))) result }
{
    let image = text_of(matches, "image")?;
    Some(Inspect {
        image,
        verbose: flag_of(matches, "verbose"),
    })
}

fn run_of<'a>(matches: &ArgMatches<'a>) -> Option<Run<'a>>
    ensures { IsWhatHolds (HoldsRun (rows_of (found_of matches.now))) result }
{
    let entries = text_of(matches, "entries")?;
    let image = text_of(matches, "image")?;
    let Some(limit) = number_of(matches, "limit") else {
        return None;
    };
    Some(Run {
        entries,
        limit,
        turns: flag_of(matches, "turns"),
        stacks: flag_of(matches, "stacks"),
        journal: text_of(matches, "journal"),
        image,
        verbose: flag_of(matches, "verbose"),
    })
}

fn replay_of<'a>(matches: &ArgMatches<'a>) -> Option<Replay<'a>>
    ensures { IsWhatHolds (HoldsReplay (rows_of (found_of matches.now))) result }
{
    let entries = text_of(matches, "entries")?;
    let journal = text_of(matches, "journal")?;
    let image = text_of(matches, "image")?;
    Some(Replay {
        entries,
        stacks: flag_of(matches, "stacks"),
        at: number_of(matches, "at"),
        journal,
        image,
        verbose: flag_of(matches, "verbose"),
    })
}

/// The text that is the value of an argument.
fn text_of<'a>(matches: &ArgMatches<'a>, id: &str) -> Option<&'a str>
    ensures { text_in result ≡ first_of id.now (rows_of (found_of matches.now)) }
{
    matches.get_str(id)
}

/// Whether a flag was used.
fn flag_of(matches: &ArgMatches<'_>, id: &str) -> bool
    ensures { HoldsFlag (rows_of (found_of matches.now)) id.now result }
{
    matches.get_flag(id)
}

/// The number that is the value of an argument.
fn number_of(matches: &ArgMatches<'_>, id: &str) -> Option<u64>
    ensures { IsWhatHolds (HoldsNumber (rows_of (found_of matches.now)) id.now) result }
{
    matches.get_one::<u64>(id)
}

/// The number of 32 bits that is the value of an argument.
fn count_of(matches: &ArgMatches<'_>, id: &str) -> Option<u32>
    ensures { IsWhatHolds (HoldsBits 32 (rows_of (found_of matches.now)) id.now) result }
{
    matches.get_one::<u32>(id)
}

/// The names of the files, in the order given.
fn files_of<'a>(alloc: Global, matches: &ArgMatches<'a>) -> Result<Vec<&'a str>, AllocError>
    ensures { IfOk result (λ files. texts files.items ≡ values_of (rows_of (found_of matches.now)) (codes "file")) }
{
    match matches.get_strs("file") {
        Some(names) => Vec::from_slice(alloc, names),
        None => Ok(Vec::new(alloc)),
    }
}

/// The fault of arguments that `clap` accepts and that request nothing.
fn missing(alloc: Global, program: &mut Command<'_>) -> WordsFault
    ensures { SaysKind ErrorKind.MissingSubcommand result }
{
    match program.error(ErrorKind::MissingSubcommand, "a command is missing") {
        Ok(error) => fault_of(alloc, &error),
        Err(_) => WordsFault::Memory,
    }
}
