//! From a program to an image: the classes that may be are initialized.

ghost use Rattle.std.specs.Prelude.{◌≡◌, ◌≢◌, ◌↔◌, ◌⊎◌, ℕ, ◌<◌, ◌^◌, Err, IfErr, IfOk};
ghost use Rattle.region_shape.specs.Regions.{environment_of};
ghost use Rattle.region_shape.specs.Wholes.{AreWhole};
ghost use Rattle.wave_scheduler.specs.Outcomes.{CanWork};
ghost use Rattle.wave_scheduler.specs.declared.outcome.WaveFault.TheVariants as wave_faults;
ghost use Rattle.object_graph.specs.Images.{AreSmall};
ghost use Rattle.building.specs.Builds.{text_of, IsBuildOfProgram};
ghost use Rattle.building.specs.Refusals.{IsOption, OptionsFail};
ghost use Rattle.building.specs.declared.build.BuildFault.TheVariants.{Memory, Wave};
ghost use Rattle.building.specs.steps.Gathered.{IsGathered};
ghost use Rattle.building.specs.steps.Settling.{SettlesBy};

use crate::settling::{settle_by_workers, settle_here};
use classfile::ClassFault;
use initializer_analysis::verdict::Verdicts;
use object_graph::{Image, gather};
use options::OptionFault;
use program::{LinkFault, Program};
use region_shape::{show_from_files, show_linked};
use std::alloc::{AllocError, Global};
use std::sync::Wait;
use std::thread::Threads;
use wave_scheduler::outcome::{Settled, WaveFault};
use wave_scheduler::{Gate, can_work};

/// The options of a build.
#[derive(Drop)]
pub struct BuildOptions<'a> {
    /// The classes that are to be initialized at run time, as a list of patterns.
    pub run_time: Option<&'a str>,
    /// The classes that are to be initialized at build time, as a list of patterns.
    pub build_time: Option<&'a str>,
    /// The most that the initializer of each class may cost: 1 to 1,000,000,000.
    pub budget: u64,
}

/// An image, and the last verdicts on all classes.
#[derive(Drop)]
pub struct Built {
    pub image: Image,
    pub verdicts: Verdicts,
}

/// Why nothing was built. To be out of memory is `Memory`, and never inside another fault.
#[derive(Drop)]
pub enum BuildFault {
    Memory,
    /// A file of this place, from 0, is no class file.
    Class(usize, ClassFault),
    /// The classes do not make one program.
    Link(LinkFault),
    /// A list of patterns is wrong.
    Option(OptionFault),
    /// The budget is 0, or over 1,000,000,000.
    Budget,
    /// The waves can't be tried as it was asked.
    Wave(WaveFault),
}

impl BuildFault {
    /// The fault of the options. To be out of memory is no fault of theirs.
    pub(crate) fn of_option(fault: OptionFault) -> BuildFault
        ensures memory { fault ≡ OptionFault.Memory → result ≡ BuildFault.Memory }
        ensures other { fault ≢ OptionFault.Memory → result ≡ BuildFault.Option fault }
    {
        match fault {
            OptionFault::Memory => BuildFault::Memory,
            fault => BuildFault::Option(fault),
        }
    }

    /// The fault of the waves. To be out of memory is no fault of theirs.
    pub(crate) fn of_wave(fault: WaveFault) -> BuildFault
        ensures memory { fault ≡ WaveFault.Memory → result ≡ BuildFault.Memory }
        ensures other { fault ≢ WaveFault.Memory → result ≡ BuildFault.Wave fault }
    {
        match fault {
            WaveFault::Memory => BuildFault::Memory,
            fault => BuildFault::Wave(fault),
        }
    }
}

/// The image of what became of all classes.
fn image_of(alloc: Global, program: Program, settled: Settled) -> Result<Built, BuildFault>
    requires whole { AreWhole program (environment_of settled.regions) }
    requires small { AreSmall program (environment_of settled.regions) }
    ensures gathered { IfOk result (IsGathered program settled) }
    ensures memory { IfErr result (λ fault. fault ≡ Memory) }
{
    let Settled { verdicts, regions } = settled;
    match gather(alloc, program, regions) {
        Ok(image) => Ok(Built { image, verdicts }),
        Err(AllocError) => Err(BuildFault::Memory),
    }
}

/// The image of a program of whose classes this became, by the options, or why it is not known.
fn image_by(
    alloc: Global,
    program: Program,
    options: &BuildOptions<'_>,
    settled: Result<Settled, BuildFault>,
) -> Result<Built, BuildFault>
    requires budget { options.now.budget < 2 ^ 31 }
    requires settled { SettlesBy program options.now settled }
    ensures build { IfOk result (IsBuildOfProgram program options.now) }
    // Nothing is built but for want of memory, or for what is wrong with the options.
    ensures fault { IfErr result (λ fault. (fault ≡ Memory) ⊎ IsOption (OptionsFail program
        (text_of options.now.run_time) (text_of options.now.build_time) options.now.budget) fault) }
{
    show_linked(&program);
    show_from_files(&program);
    match settled {
        Ok(settled) => image_of(alloc, program, settled),
        Err(fault) => Err(fault),
    }
}

/// The image of a program, by the options: initializes on this thread each class that may be, within the budget.
///
/// # Errors
/// `Option` of the first that is wrong: the text of the list for run time; that of the one for build time; a pattern
/// for run time that matches no class; one for build time; a class that is demanded and forced; one that is demanded
/// and not accepted in the end. Or `Memory`.
pub fn build_program_here(
    alloc: Global,
    program: Program,
    options: &BuildOptions<'_>,
) -> Result<Built, BuildFault>
    requires budget { options.now.budget < 2 ^ 31 }
    ensures build { IfOk result (IsBuildOfProgram program options.now) }
    // Nothing is built but for want of memory, or for what is wrong with the options.
    ensures fault { IfErr result (λ fault. (fault ≡ Memory) ⊎ IsOption (OptionsFail program
        (text_of options.now.run_time) (text_of options.now.build_time) options.now.budget) fault) }
{
    let settled = settle_here(alloc, &program, options);
    image_by(alloc, program, options, settled)
}

/// The image of a program, by the options: initializes by 1 to 64 workers each class that may be, within the budget.
/// What is promised of it is what `build_program_here` promises. Each worker asks the gate before a class.
///
/// # Errors
/// `Wave` of `Workers` where there are none or more than 64. Else as `build_program_here`.
pub fn build_program<G: Gate, R: Threads + Wait + Sync>(
    rt: &R,
    alloc: Global,
    program: Program,
    options: &BuildOptions<'_>,
    workers: u32,
    gate: &G,
) -> Result<Built, BuildFault>
    requires budget { options.now.budget < 2 ^ 31 }
    ensures build { IfOk result (IsBuildOfProgram program options.now) }
    // Nothing is built but for want of memory, or for what is wrong with the number of workers or the options.
    ensures fault { IfErr result (λ fault. (fault ≡ Memory) ⊎ (fault ≡ Wave wave_faults.Workers)
        ⊎ IsOption (OptionsFail program (text_of options.now.run_time) (text_of options.now.build_time)
        options.now.budget) fault) }
    // The number of workers is refused just where it is wrong, and nothing else is told then.
    ensures workers { (result ≡ Err (Wave wave_faults.Workers)) ↔ (¬ CanWork workers) }
{
    if !can_work(workers) {
        return Err(BuildFault::Wave(WaveFault::Workers));
    }
    let settled = settle_by_workers(rt, alloc, &program, options, workers, gate);
    image_by(alloc, program, options, settled)
}
