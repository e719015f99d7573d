//! From class files' bytes to an image.

ghost use Rattle.std.specs.Prelude.{◌≡◌, ◌↔◌, ◌⊎◌, Err, IfErr, IfOk, IsTrue};
ghost use Rattle.building.specs.Builds.{text_of};
ghost use Rattle.building.specs.declared.build.BuildFault.TheVariants.{Memory, Budget, Wave};
ghost use Rattle.wave_scheduler.specs.Outcomes.{CanWork};
ghost use Rattle.wave_scheduler.specs.declared.outcome.WaveFault.TheVariants.{Workers};
ghost use Rattle.cli.specs.Builds.{BuildFails, IsBudget, IsBuildOfClassFiles};
ghost use Rattle.cli.specs.Runs.{texts_of};
ghost use Rattle.cli.specs.steps.Builds.{fault_of};

use crate::CommandFault;
use crate::class_files::linked_program;
use building::{BuildFault, BuildOptions, Built, build_program, build_program_here};
use std::alloc::Global;
use std::sync::Wait;
use std::thread::Threads;
use wave_scheduler::outcome::WaveFault;
use wave_scheduler::{Gate, can_work};

/// Whether an initializer may be given so much.
fn is_budget(budget: u64) -> bool
    ensures { IsTrue result ↔ IsBudget budget }
{
    0 < budget && budget <= 1_000_000_000
}

/// Why there is no program to build.
fn fault_of(refusal: CommandFault) -> BuildFault
    ensures { result ≡ fault_of refusal }
{
    match refusal {
        CommandFault::Class(place, fault) => BuildFault::Class(place, fault),
        CommandFault::Link(fault) => BuildFault::Link(fault),
        _ => BuildFault::Memory,
    }
}

/// Builds an image on this thread, from class files' bytes: initializes each class that may be, within the budget.
///
/// # Errors
/// The first that holds of `Budget`, `Class` (a text is no class file), `Link` and `Option`; or `Memory`, but never
/// where the budget is wrong.
pub fn build_here(
    alloc: Global,
    files: &[Vec<u8>],
    options: &BuildOptions<'_>,
) -> Result<Built, BuildFault>
    // The image is of the class files, by the options, and holds exactly the accepted classes' results. The headline:
    // what the class files show under some schedule of the lazy procedure, a run from the image shows under some
    // schedule, and conversely, for every list of entries.
    ensures build { IfOk result (IsBuildOfClassFiles (texts_of files.now) options.now) }
    // Nothing is built but for want of memory, or for the first that is wrong.
    ensures fault { IfErr result (λ fault. (fault ≡ Memory) ⊎ BuildFails (texts_of files.now)
        (text_of options.now.run_time) (text_of options.now.build_time) options.now.budget fault) }
    // The budget is refused just where it is wrong, and nothing else is told then: it takes no memory to see.
    ensures budget { (result ≡ Err Budget) ↔ (¬ IsBudget options.now.budget) }
{
    if !is_budget(options.budget) {
        return Err(BuildFault::Budget);
    }
    match linked_program(alloc, files) {
        Ok(program) => build_program_here(alloc, program, options),
        Err(refusal) => Err(fault_of(refusal)),
    }
}

/// Builds an image from class files' bytes as `build_here` does, by 1 to 64 workers, each in a thread of its own, or
/// one on this thread. Each worker asks the gate before it initializes a class. What is promised of the image is the
/// same for any number of workers, and so is the image.
///
/// # Errors
/// The first that holds of `Budget`, `Wave` of `Workers` (there are none or more than 64), `Class` (a text is no class
/// file), `Link` and `Option`; or `Memory`, but never where the budget or the number of workers is wrong.
pub fn build<G: Gate, R: Threads + Wait + Sync>(
    rt: &R,
    alloc: Global,
    files: &[Vec<u8>],
    options: &BuildOptions<'_>,
    workers: u32,
    gate: &G,
) -> Result<Built, BuildFault>
    // What `build_here` promises, and so the headline.
    ensures build { IfOk result (IsBuildOfClassFiles (texts_of files.now) options.now) }
    // Nothing is built but for want of memory, or for the first that is wrong.
    ensures fault { IfErr result (λ fault. (fault ≡ Memory) ⊎ (fault ≡ Wave Workers) ⊎ BuildFails (texts_of files.now)
        (text_of options.now.run_time) (text_of options.now.build_time) options.now.budget fault) }
    // The budget is refused just where it is wrong, and nothing else is told then: it takes no memory to see.
    ensures budget { (result ≡ Err Budget) ↔ (¬ IsBudget options.now.budget) }
    // So is the number of workers, where the budget is right.
    ensures workers { (result ≡ Err (Wave Workers)) ↔ (IsBudget options.now.budget × ¬ CanWork workers) }
{
    if !is_budget(options.budget) {
        Err(BuildFault::Budget)
    } else if !can_work(workers) {
        Err(BuildFault::Wave(WaveFault::Workers))
    } else {
        match linked_program(alloc, files) {
            Ok(program) => build_program(rt, alloc, program, options, workers, gate),
            Err(refusal) => Err(fault_of(refusal)),
        }
    }
}
