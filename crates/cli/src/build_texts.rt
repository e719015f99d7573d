//! The texts of a build, its image's and its report, and the files that get them.
//!
//! Whether a report is wanted is asked in a function of its own, so that nothing joins before the texts are put
//! together.
ghost use Rattle.std.specs.Prelude.{◌≡◌, ◌≢◌, ℕ, List, Some, true, IfErr, IfOk, OnOk};
ghost use Rattle.building.specs.Builds.{text_of as list_of};
ghost use Rattle.building.specs.declared.build.BuildOptions.{BuildOptions as Options};
ghost use Rattle.image_format.specs.Images.{AreShort};
ghost use Rattle.report.specs.Texts.{report_text};
ghost use Rattle.report.specs.Waves.{GiveWaves};
ghost use Rattle.cli.specs.Builds.{IsBuildOfClassFiles};
ghost use Rattle.cli.specs.CommandFault.{refusal_status};
ghost use Rattle.cli.specs.Done.{AreBothWritten, AreWritten};
ghost use Rattle.cli.specs.ImageBuilds.{AreAtMost, IsBuiltText};
ghost use Rattle.cli.specs.ImageRuns.{IsTextOf};
ghost use Rattle.cli.specs.Outputs.{IsReportApart};
ghost use Rattle.cli.specs.Runs.{texts_of};
ghost use Rattle.cli.specs.Pages.{IsPageBy};
ghost use Rattle.cli.specs.steps.BuildTexts.{AreAllWritten, AreTextsOfBuild};
ghost use Rattle.cli.specs.steps.Left.{LeavesAll, LeavesTexts};

use crate::builds::build;
use crate::files::put;
use crate::image_build::GREATEST_LENGTH;
use crate::pages::{page_bytes, put_page};
use crate::reporting::report_bytes;
use crate::totals::tell_totals;
use crate::watching::Watched;
use crate::{Build, CommandFault, Files, Watch};
use building::{BuildFault, BuildOptions, Built};
use image_writer::image_text;
use std::alloc::{AllocError, Global};
use std::sync::Wait;
use std::thread::Threads;

/// Which texts of a build are wanted besides the image's.
#[derive(Clone, Copy)]
pub(crate) struct Wanted {
    pub(crate) report: bool,
    pub(crate) page: bool,
}

/// The texts of a build.
#[derive(Drop)]
pub(crate) struct BuildTexts {
    /// The text of the image.
    pub image: Vec<u8>,
    /// The report, where it is wanted.
    pub report: Vec<u8>,
    /// The page, where it is wanted.
    pub page: Vec<u8>,
}

/// Builds as `build` does, and answers the texts of it.
///
/// # Errors
/// As `build`.
pub(crate) fn build_texts<H: Watch + Sync, R: Threads + Wait + Sync>(
    rt: &R,
    alloc: Global,
    files: &[Vec<u8>],
    options: &BuildOptions<'_>,
    workers: u32,
    watch: &H,
    wanted: Wanted,
) -> Result<BuildTexts, BuildFault>
    requires { AreAtMost GREATEST_LENGTH (texts_of files.now) }
    ensures { IfOk result (AreTextsOfBuild (texts_of files.now) options.now wanted) }
{
    match build(rt, alloc, files, options, workers, &Watched { watch }) {
        Ok(built) => match texts_of_watched(alloc, &built, options, watch, wanted) {
            Ok(texts) => Ok(texts),
            Err(_) => Err(BuildFault::Memory),
        },
        Err(fault) => Err(fault),
    }
}

/// The texts of a build, of which it is told what it came to.
fn texts_of_watched<H: Watch>(
    alloc: Global,
    built: &Built,
    options: &BuildOptions<'_>,
    watch: &H,
    wanted: Wanted,
) -> Result<BuildTexts, AllocError>
    requires short { AreShort built.now.image.program.family }
    requires waves { GiveWaves built.now.image built.now.verdicts }
    ensures { (texts : List (List ℕ)) → IsBuildOfClassFiles texts options.now built.now
        → IfOk result (AreTextsOfBuild texts options.now wanted) }
{
    tell_totals(alloc, built, watch);
    texts_of_build(alloc, built, options, wanted)
}

/// The texts of a build.
fn texts_of_build(
    alloc: Global,
    built: &Built,
    options: &BuildOptions<'_>,
    wanted: Wanted,
) -> Result<BuildTexts, AllocError>
    requires short { AreShort built.now.image.program.family }
    requires waves { GiveWaves built.now.image built.now.verdicts }
    ensures { (texts : List (List ℕ)) → IsBuildOfClassFiles texts options.now built.now
        → IfOk result (AreTextsOfBuild texts options.now wanted) }
{
    match image_bytes(alloc, built) {
        Ok(image) => match report_if(alloc, built, wanted.report) {
            Ok(report) => match page_if(alloc, built, options, wanted.page) {
                Ok(page) => Ok(BuildTexts {
                    image,
                    report,
                    page,
                }),
                Err(error) => Err(error),
            },
            Err(error) => Err(error),
        },
        Err(error) => Err(error),
    }
}

/// The text of the image of a build.
pub(crate) fn image_bytes(alloc: Global, built: &Built) -> Result<Vec<u8>, AllocError>
    requires { AreShort built.now.image.program.family }
    ensures built { (texts : List (List ℕ)) (options : Options) → IsBuildOfClassFiles texts options built.now
        → IfOk result (λ bytes. IsBuiltText texts (list_of options.run_time) (list_of options.build_time)
        options.budget bytes.items) }
    ensures text { IfOk result (λ bytes. IsTextOf bytes.items built.now.image) }
{
    let _region = built.image.region(0);
    image_text(alloc, &built.image)
}

/// The report of a build, if it is wanted.
fn report_if(alloc: Global, built: &Built, wanted: bool) -> Result<Vec<u8>, AllocError>
    requires { GiveWaves built.now.image built.now.verdicts }
    ensures { wanted ≡ true
        → IfOk result (λ bytes. bytes.items ≡ report_text built.now.image built.now.verdicts) }
{
    if wanted {
        report_bytes(alloc, built)
    } else {
        Ok(Vec::new(alloc))
    }
}

/// The page of a build, if it is wanted.
fn page_if(
    alloc: Global,
    built: &Built,
    options: &BuildOptions<'_>,
    wanted: bool,
) -> Result<Vec<u8>, AllocError>
    requires { GiveWaves built.now.image built.now.verdicts }
    ensures { wanted ≡ true → IfOk result
        (λ bytes. IsPageBy built.now (list_of options.now.run_time) options.now.budget bytes.items) }
{
    if wanted {
        page_bytes(alloc, built, options.run_time, options.budget)
    } else {
        Ok(Vec::new(alloc))
    }
}

/// Writes the texts of a build to the files that the words name: the page first, and the image last.
///
/// # Errors
/// `File` of the first that can't be written, or memory.
#[tactic(auto, using(crate::proofs::LeftLemmas::of_all_texts))]
pub(crate) fn write_texts<F: Files>(
    alloc: Global,
    words: &Build<'_>,
    texts: &BuildTexts,
    files: &mut F,
) -> Result<(), CommandFault>
    requires { IsReportApart words.now }
    ensures written { OnOk result (AreAllWritten (F.holds files.old) (F.holds files.new) words.now texts.now) }
    ensures left { IfErr result (λ refusal. LeavesAll (F.holds files.old) (F.holds files.new) words.now texts.now
        (refusal_status refusal)) }
{
    put_page(alloc, words.page, texts.page.as_slice(), files)?;
    write_with_report(alloc, words, texts, files)
}

/// Writes the text of an image and, where the words name a file for it, the report before it.
#[tactic(auto, using(crate::proofs::LeftLemmas::image_refused))]
fn write_with_report<F: Files>(
    alloc: Global,
    words: &Build<'_>,
    texts: &BuildTexts,
    files: &mut F,
) -> Result<(), CommandFault>
    requires { IsReportApart words.now }
    ensures written { OnOk result (AreWritten (F.holds files.old) (F.holds files.new) words.now.image.now
        words.now.report texts.now.image.items texts.now.report.items) }
    ensures left { IfErr result (λ refusal. LeavesTexts (F.holds files.old) (F.holds files.new) words.now.image.now
        words.now.report texts.now.report.items (refusal_status refusal)) }
{
    match words.report {
        Some(name) => write_both(alloc, words.image, name, texts, files),
        None => put(alloc, words.image, texts.image.as_slice(), files),
    }
}

/// Writes both texts of a build, the image last.
#[tactic(auto, using(crate::proofs::LeftLemmas::of_both_texts))]
fn write_both<F: Files>(
    alloc: Global,
    image: &str,
    report: &str,
    texts: &BuildTexts,
    files: &mut F,
) -> Result<(), CommandFault>
    requires { report.now ≢ image.now }
    ensures written { OnOk result (AreBothWritten (F.holds files.old) (F.holds files.new) image.now report.now
        texts.now.image.items texts.now.report.items) }
    ensures left { IfErr result (λ refusal. LeavesTexts (F.holds files.old) (F.holds files.new) image.now
        (Some report.entry) texts.now.report.items (refusal_status refusal)) }
{
    put(alloc, report, texts.report.as_slice(), files)?;
    put(alloc, image, texts.image.as_slice(), files)
}
