//! From class files' bytes to an image's bytes, and the command `build` over it.
ghost use Rattle.std.specs.Prelude.{◌≡◌, ◌↔◌, ◌⊎◌, Err, IfErr, IfOk, OnOk};
ghost use Rattle.building.specs.Builds.{text_of as list_of};
ghost use Rattle.building.specs.declared.build.BuildFault.TheVariants.{Budget, Memory, Wave};
ghost use Rattle.wave_scheduler.specs.Outcomes.{CanWork};
ghost use Rattle.wave_scheduler.specs.declared.outcome.WaveFault.TheVariants.{Workers};
ghost use Rattle.command_line.specs.declared.request.Request.TheVariants.{Build as ToBuild};
ghost use Rattle.cli.specs.Builds.{BuildFails, IsBudget};
ghost use Rattle.cli.specs.Done.{HasBuilt};
ghost use Rattle.cli.specs.ImageBuilds.{AreAtMost, IsBuiltText};
ghost use Rattle.cli.specs.Left.{HasLeft};
ghost use Rattle.cli.specs.Outputs.{IsReportApart};
ghost use Rattle.cli.specs.Runs.{texts_of};
ghost use Rattle.cli.specs.steps.BuildTexts.{wanted_of};
ghost use Rattle.cli.specs.steps.Left.{status_of_done};

use crate::build_texts::{Wanted, build_texts, image_bytes, write_texts};
use crate::builds::build;
use crate::files::contents;
use crate::requested::{options_of, refusal_of};
use crate::{Build, CommandFault, Files, Stage, Watch};
use building::{BuildFault, BuildOptions};
use std::alloc::Global;
use std::sync::Wait;
use std::thread::Threads;
use wave_scheduler::Gate;

/// The greatest length of a class file of an image, which counts its bytes in 32 bits.
pub const GREATEST_LENGTH: usize = 0xFFFF_FFFF;

/// Builds an image by 1 to 64 workers, from class files' bytes, and answers its text.
///
/// # Errors
/// As `build`.
pub fn build_image<G: Gate, R: Threads + Wait + Sync>(
    rt: &R,
    alloc: Global,
    files: &[Vec<u8>],
    options: &BuildOptions<'_>,
    workers: u32,
    gate: &G,
) -> Result<Vec<u8>, BuildFault>
    requires { AreAtMost GREATEST_LENGTH (texts_of files.now) }
    // The bytes are the text of an image that is built of the class files by the options.
    ensures image { IfOk result (λ bytes. IsBuiltText (texts_of files.now) (list_of options.now.run_time)
        (list_of options.now.build_time) options.now.budget bytes.items) }
    // Nothing is built but for want of memory, or for the first that is wrong.
    ensures fault { IfErr result (λ fault. (fault ≡ Memory) ⊎ (fault ≡ Wave Workers) ⊎ BuildFails (texts_of files.now)
        (list_of options.now.run_time) (list_of options.now.build_time) options.now.budget fault) }
    // The budget is refused just where it is wrong, and nothing else is told then: it takes no memory to see.
    ensures budget { (result ≡ Err Budget) ↔ (¬ IsBudget options.now.budget) }
    // The number of workers is refused just where it is wrong and the budget is right.
    ensures workers { (result ≡ Err (Wave Workers)) ↔ (IsBudget options.now.budget × ¬ CanWork workers) }
{
    match build(rt, alloc, files, options, workers, gate) {
        Ok(built) => match image_bytes(alloc, &built) {
            Ok(bytes) => Ok(bytes),
            Err(_) => Err(BuildFault::Memory),
        },
        Err(fault) => Err(fault),
    }
}

/// Which texts of a build the words ask for, besides the image's.
fn wanted_of(words: &Build<'_>) -> Wanted
    ensures { result ≡ wanted_of words.now }
{
    Wanted {
        report: words.report.is_some(),
        page: words.page.is_some(),
    }
}

/// Reads the class files, builds an image, and writes it, its report and its page to their files, as the words say.
///
/// # Errors
/// The first refusal: a file, the budget, the workers, a class file, linking, a list of patterns, an output, or memory.
/// A file that is longer than a class file of an image is refused as one that can't be read.
#[tactic(auto, using(crate::proofs::LeftLemmas::unchanged))]
pub(crate) fn run<R: Threads + Wait + Sync, F: Files, H: Watch + Sync>(
    rt: &R,
    alloc: Global,
    words: &Build<'_>,
    files: &mut F,
    watch: &H,
) -> Result<(), CommandFault>
    requires { IsReportApart words.now }
    ensures built { OnOk result (HasBuilt (F.holds files.old) (F.holds files.new) words.now) }
    ensures left { HasLeft (F.holds files.old) (F.holds files.new) (ToBuild words.now) (status_of_done result) }
{
    let building = &words.building;
    watch.begin(Stage::Reading);
    let texts = contents(alloc, building.files.as_slice(), files, GREATEST_LENGTH)?;
    let options = options_of(building);
    watch.begin(Stage::Building);
    let wanted = wanted_of(words);
    match build_texts(
        rt,
        alloc,
        texts.as_slice(),
        &options,
        words.workers,
        watch,
        wanted,
    ) {
        Ok(made) => {
            watch.begin(Stage::Writing);
            write_texts(alloc, words, &made, files)
        }
        Err(fault) => Err(refusal_of(alloc, fault)),
    }
}
