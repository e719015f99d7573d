//! The outcomes of all classes by options, on this thread and by workers.

ghost use Rattle.std.specs.Prelude.{◌≡◌, ◌⊎◌, length, IfErr, IfOk, OnOk};
ghost use Rattle.initializer_analysis.specs.Verdicts.{AreVerdicts};
ghost use Rattle.wave_scheduler.specs.Outcomes.{settled_of, CanWork};
ghost use Rattle.options.specs.Demands.{AreMet, IsUnmet};
ghost use Rattle.building.specs.Refusals.{IsOption};
ghost use Rattle.building.specs.declared.build.BuildFault.TheVariants.{Memory};
ghost use Rattle.building.specs.steps.Settling.{SettlesAsked, SettlesBy};

use crate::asking::{AskedOptions, ask};
use crate::build::{BuildFault, BuildOptions};
use options::{Demand, check};
use program::Program;
use std::alloc::Global;
use std::sync::Wait;
use std::thread::Threads;
use wave_scheduler::outcome::Settled;
use wave_scheduler::{Gate, settle_all, settle_all_here};

/// The outcomes of all classes, if they are as demanded.
fn checked(
    alloc: Global,
    program: &Program,
    settled: Settled,
    demand: &Demand,
) -> Result<Settled, BuildFault>
    requires { length settled.verdicts ≡ length program.now.classes }
    ensures same { IfOk result (λ last. last ≡ settled) }
    ensures met { OnOk result (AreMet program.now demand.now (settled_of settled)) }
    ensures fault { IfErr result
        (λ fault. (fault ≡ Memory) ⊎ IsOption (IsUnmet program.now demand.now (settled_of settled)) fault) }
{
    match check(alloc, program, &settled, demand) {
        Ok(()) => Ok(settled),
        Err(fault) => Err(BuildFault::of_option(fault)),
    }
}

/// The outcomes of all classes on this thread, if they are as demanded.
fn settle_asked_here(
    alloc: Global,
    program: &Program,
    asked: AskedOptions,
    budget: u64,
) -> Result<Settled, BuildFault>
    requires { AreVerdicts program.now asked.forced asked.verdicts }
    ensures { SettlesAsked program.now asked budget result }
{
    let AskedOptions {
        forced: _forced,
        demand,
        verdicts,
    } = asked;
    match settle_all_here(alloc, program, verdicts, budget) {
        Ok(settled) => checked(alloc, program, settled, &demand),
        Err(fault) => Err(BuildFault::of_wave(fault)),
    }
}

/// The outcomes of all classes by workers, if they are as demanded.
fn settle_asked<G: Gate, R: Threads + Wait + Sync>(
    rt: &R,
    alloc: Global,
    program: &Program,
    asked: AskedOptions,
    budget: u64,
    workers: u32,
    gate: &G,
) -> Result<Settled, BuildFault>
    requires verdicts { AreVerdicts program.now asked.forced asked.verdicts }
    requires workers { CanWork workers }
    ensures { SettlesAsked program.now asked budget result }
{
    let AskedOptions {
        forced: _forced,
        demand,
        verdicts,
    } = asked;
    match settle_all(rt, alloc, program, verdicts, budget, workers, gate) {
        Ok(settled) => checked(alloc, program, settled, &demand),
        Err(fault) => Err(BuildFault::of_wave(fault)),
    }
}

/// The outcomes of all classes on this thread, by the options.
pub(crate) fn settle_here(
    alloc: Global,
    program: &Program,
    options: &BuildOptions<'_>,
) -> Result<Settled, BuildFault>
    ensures { SettlesBy program.now options.now result }
{
    match ask(alloc, program, options) {
        Ok(asked) => settle_asked_here(alloc, program, asked, options.budget),
        Err(fault) => Err(fault),
    }
}

/// The outcomes of all classes by workers, by the options.
pub(crate) fn settle_by_workers<G: Gate, R: Threads + Wait + Sync>(
    rt: &R,
    alloc: Global,
    program: &Program,
    options: &BuildOptions<'_>,
    workers: u32,
    gate: &G,
) -> Result<Settled, BuildFault>
    requires { CanWork workers }
    ensures { SettlesBy program.now options.now result }
{
    match ask(alloc, program, options) {
        Ok(asked) => settle_asked(rt, alloc, program, asked, options.budget, workers, gate),
        Err(fault) => Err(fault),
    }
}
