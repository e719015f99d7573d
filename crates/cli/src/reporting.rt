//! The command `report`: a build in memory, and a line for each class.
ghost use Rattle.std.specs.Prelude.{◌≡◌, IfErr, IfOk, OnOk};
ghost use Rattle.cli.specs.CommandFault.{refusal_status};
ghost use Rattle.cli.specs.Done.{HasPage, HasReport};
ghost use Rattle.cli.specs.Left.{OthersStayIf};
ghost use Rattle.cli.specs.declared.status.Status.TheVariants.{Refused};
ghost use Rattle.report.specs.Texts.{report_text};
ghost use Rattle.report.specs.Waves.{GiveWaves};

use crate::files::put;
use crate::pages::page_bytes;
use crate::requested::asked_build;
use crate::totals::tell_cures_and_totals;
use crate::{CommandFault, Files, Report, Watch};
use building::Built;
use report::render;
use sinks::Out;
use std::alloc::{AllocError, Global};
use std::sync::Wait;
use std::thread::Threads;

/// Reads the class files, builds an image, writes its page, where the words name a file for it, and answers its report.
///
/// # Errors
/// The first refusal: a file, the budget, a class file, linking, a list of patterns, the page's file, or memory.
pub(crate) fn run<R: Threads + Wait + Sync, F: Files, H: Watch + Sync>(
    rt: &R,
    alloc: Global,
    words: &Report<'_>,
    files: &mut F,
    watch: &H,
) -> Result<Vec<u8>, CommandFault>
    ensures report { IfOk result (λ bytes. HasReport (F.holds files.old) (F.holds files.new) words.now bytes.items) }
    ensures others { OthersStayIf (F.holds files.old) (F.holds files.new) words.now.page }
    ensures refused { IfErr result (λ refusal. refusal_status refusal ≡ Refused
        → F.holds files.new ≡ F.holds files.old) }
{
    match asked_build(rt, alloc, &words.building, files, watch) {
        Ok(built) => {
            tell_cures_and_totals(alloc, &built, watch);
            told(alloc, &built, words, files)
        }
        Err(refusal) => Err(refusal),
    }
}

/// Writes the page of a build, if it is asked for, and answers its report.
fn told<F: Files>(
    alloc: Global,
    built: &Built,
    words: &Report<'_>,
    files: &mut F,
) -> Result<Vec<u8>, CommandFault>
    requires { GiveWaves built.now.image built.now.verdicts }
    ensures report { IfOk result (λ bytes. bytes.items ≡ report_text built.now.image built.now.verdicts) }
    ensures page { OnOk result
        (HasPage (F.holds files.old) (F.holds files.new) words.now.page built.now words.now.building) }
    ensures others { OthersStayIf (F.holds files.old) (F.holds files.new) words.now.page }
    ensures refused { IfErr result (λ refusal. refusal_status refusal ≡ Refused
        → F.holds files.new ≡ F.holds files.old) }
{
    let report = report_bytes(alloc, built)?;
    write_page(alloc, built, words, files)?;
    Ok(report)
}

/// Writes the page of a build, if it is asked for.
fn write_page<F: Files>(
    alloc: Global,
    built: &Built,
    words: &Report<'_>,
    files: &mut F,
) -> Result<(), CommandFault>
    requires { GiveWaves built.now.image built.now.verdicts }
    ensures page { OnOk result
        (HasPage (F.holds files.old) (F.holds files.new) words.now.page built.now words.now.building) }
    ensures others { OthersStayIf (F.holds files.old) (F.holds files.new) words.now.page }
    ensures refused { IfErr result (λ refusal. refusal_status refusal ≡ Refused
        → F.holds files.new ≡ F.holds files.old) }
{
    let Some(name) = words.page else {
        return Ok(());
    };
    let building = &words.building;
    let page = page_bytes(alloc, built, building.run_time, building.budget)?;
    put(alloc, name, page.as_slice(), files)
}

/// The report of a build.
pub(crate) fn report_bytes(alloc: Global, built: &Built) -> Result<Vec<u8>, AllocError>
    requires { GiveWaves built.now.image built.now.verdicts }
    ensures { IfOk result (λ bytes. bytes.items ≡ report_text built.now.image built.now.verdicts) }
{
    let mut bytes = Out::new(Vec::new(alloc));
    match render(alloc, &built.image, &built.verdicts, &mut bytes) {
        Ok(()) => Ok(bytes.into_inner()),
        Err(_) => Err(AllocError),
    }
}
