//! The build that words ask for, and why it is refused.
ghost use Rattle.std.specs.Prelude.{◌≡◌, IfOk};
ghost use Rattle.cli.specs.Requested.{IsAskedBuild, options_of as asked_of};

use crate::files::contents;
use crate::watching::build_watched;
use crate::{Building, CommandFault, Files, Stage, Watch};
use building::{BuildFault, BuildOptions, Built};
use options::OptionFault;
use std::alloc::Global;
use std::sync::Wait;
use std::thread::Threads;

/// The options of a build, as the words say.
pub(crate) fn options_of<'a>(words: &Building<'a>) -> BuildOptions<'a>
    ensures { result ≡ asked_of words.now }
{
    BuildOptions {
        run_time: words.run_time,
        build_time: words.build_time,
        budget: words.budget,
    }
}

/// Reads the class files and builds an image in memory, as the words say, and tells how far it has come.
///
/// # Errors
/// The first refusal: a file, the budget, a class file, linking, a list of patterns, or memory.
pub(crate) fn asked_build<R: Threads + Wait + Sync, F: Files, H: Watch + Sync>(
    rt: &R,
    alloc: Global,
    words: &Building<'_>,
    files: &mut F,
    watch: &H,
) -> Result<Built, CommandFault>
    ensures build { IfOk result (IsAskedBuild (F.holds files.old) words.now) }
    ensures same { F.holds files.new ≡ F.holds files.old }
{
    watch.begin(Stage::Reading);
    let texts = contents(alloc, words.files.as_slice(), files, usize::MAX)?;
    match build_watched(rt, alloc, texts.as_slice(), &options_of(words), watch) {
        Ok(built) => Ok(built),
        Err(fault) => Err(refusal_of(alloc, fault)),
    }
}

/// The refusal of a build.
pub(crate) fn refusal_of(alloc: Global, fault: BuildFault) -> CommandFault {
    match fault {
        BuildFault::Memory => CommandFault::Memory,
        BuildFault::Class(place, fault) => CommandFault::Class(place, fault),
        BuildFault::Link(fault) => CommandFault::Link(fault),
        BuildFault::Option(fault) => option_refusal(alloc, &fault),
        BuildFault::Budget => CommandFault::Budget,
        BuildFault::Wave(fault) => CommandFault::Wave(fault),
    }
}

fn option_refusal(alloc: Global, fault: &OptionFault) -> CommandFault {
    match fault.to_string(alloc) {
        Ok(text) => CommandFault::Option(text),
        Err(_) => CommandFault::Memory,
    }
}
