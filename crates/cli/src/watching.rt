//! Who is told how far a build has come.

ghost use Rattle.std.specs.Prelude.{IfOk};
ghost use Rattle.cli.specs.Builds.{IsBuildOfClassFiles};
ghost use Rattle.cli.specs.Runs.{texts_of};

use crate::builds::build;
use building::{BuildFault, BuildOptions, Built};
use built_in::class_id::ClassId;
use evaluator::outcome::Outcome;
use evaluator::settling::settle;
use program::Program;
use region_shape::regions::Regions;
use std::alloc::{AllocError, Global};
use std::sync::Wait;
use std::thread::Threads;
use wave_scheduler::Gate;

/// A stage of a build.
#[derive(Clone, Copy, Debug)]
pub enum Stage {
    /// Class files are read.
    Reading,
    /// Class files are linked, and then classes are initialized.
    Building,
    /// The image is written, or what is to be told of it.
    Writing,
    /// The build is over.
    Ended,
}

/// Told how far a build has come, by the thread of the build and by its workers.
pub trait Watch {
    /// Whether it is to be told.
    fn watches(&self) -> bool;

    /// A stage begins.
    fn begin(&self, stage: Stage);

    /// A worker begins to initialize the class of this name.
    fn class(&self, name: &str);

    /// A class was initialized, or refused.
    fn done(&self);

    /// Whether more is to be told than the result.
    fn wants_more(&self) -> bool;

    /// Lines that are told once the build is over.
    fn note(&self, lines: &str);

    /// What the build came to, in words.
    fn built(&self, totals: &str);

    /// The lines that were noted, and then one on what the build came to and what it took. None where more is not
    /// wanted, or not known.
    fn summary(&self, alloc: Global) -> Option<String>;

    /// The work of the build now, in words that follow 'while'. None where it is not known or memory is refused for it.
    fn work(&self, alloc: Global) -> Option<String>;
}

/// Told nothing.
#[derive(Clone, Copy)]
pub struct Unwatched;

impl Watch for Unwatched {
    fn watches(&self) -> bool {
        false
    }

    fn begin(&self, _stage: Stage) {}

    fn class(&self, _name: &str) {}

    fn done(&self) {}

    fn wants_more(&self) -> bool {
        false
    }

    fn note(&self, _lines: &str) {}

    fn built(&self, _totals: &str) {}

    fn summary(&self, _alloc: Global) -> Option<String> {
        None
    }

    fn work(&self, _alloc: Global) -> Option<String> {
        None
    }
}

/// The gate of a build that is watched: always ready.
#[derive(Drop)]
pub(crate) struct Watched<'a, H: Watch> {
    pub watch: &'a H,
}

impl<H: Watch> Watched<'_, H> {
    /// Tells the class's name. Where memory is refused for it, it is not told.
    fn tell(&self, alloc: Global, program: &Program, class: u32) {
        if self.watch.watches()
            && let Ok(name) = program.class_text(alloc, ClassId::Given(class))
        {
            self.watch.class(name.as_str());
        }
    }
}

impl<H: Watch + Sync> Gate for Watched<'_, H> {
    fn ready(&self, _who: u32, _job: u32, _earlier: u32) -> bool {
        true
    }

    fn settle(
        &self,
        alloc: Global,
        program: &Program,
        regions: &Regions,
        class: u32,
        budget: u64,
    ) -> Result<Outcome, AllocError> {
        self.tell(alloc, program, class);
        settle(alloc, program, regions, class, budget)
    }

    fn done(&self, _who: u32, _job: u32) {
        self.watch.done();
    }
}

/// Builds as `build` does, on this thread, and tells how far it has come.
///
/// # Errors
/// As `build`.
pub(crate) fn build_watched<R: Threads + Wait + Sync, H: Watch + Sync>(
    rt: &R,
    alloc: Global,
    files: &[Vec<u8>],
    options: &BuildOptions<'_>,
    watch: &H,
) -> Result<Built, BuildFault>
    ensures { IfOk result (IsBuildOfClassFiles (texts_of files.now) options.now) }
{
    watch.begin(Stage::Building);
    match build(rt, alloc, files, options, 1, &Watched { watch }) {
        Ok(built) => {
            watch.begin(Stage::Writing);
            Ok(built)
        }
        Err(fault) => Err(fault),
    }
}
