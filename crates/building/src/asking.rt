//! What options ask of the classes of a program, and the verdicts on all classes before any initializer is run.

ghost use Rattle.std.specs.Prelude.{◌≡◌, ◌⊎◌, IfErr, IfOk, OnOk};
ghost use Rattle.options.specs.Faults.{DemandFails};
ghost use Rattle.building.specs.Builds.{patterns_in, text_of, IsRead};
ghost use Rattle.building.specs.Refusals.{ForcingFails, IsListFault, IsOption, ListsFail, OptionsFail};
ghost use Rattle.building.specs.declared.build.BuildFault.TheVariants.{Memory};
ghost use Rattle.building.specs.steps.Asking.{AsksOf, AsksBy, IsAsked, Always};
ghost use Rattle.initializer_analysis.specs.Verdicts.{AreVerdicts};

use crate::build::{BuildFault, BuildOptions};
use initializer_analysis::forced::Forced;
use initializer_analysis::judge;
use initializer_analysis::verdict::Verdicts;
use options::{Demand, OptionFault, Patterns, demand, force, parse};
use program::Program;
use std::alloc::{AllocError, Global};

/// The patterns for run time, and those for build time.
#[derive(Drop)]
struct Lists {
    run_time: Patterns,
    build_time: Patterns,
}

/// The patterns of a list, or none.
fn patterns_of(alloc: Global, list: Option<&str>) -> Result<Patterns, OptionFault>
    ensures patterns { IfOk result (λ patterns. patterns ≡ patterns_in (text_of list.entry)) }
    ensures read { OnOk result (IsRead (text_of list.entry)) }
    ensures fault { IfErr result
        (λ fault. (fault ≡ OptionFault.Memory) ⊎ IsListFault (text_of list.entry) fault) }
{
    match list {
        Some(list) => parse(alloc, list),
        None => Ok(Patterns::none()),
    }
}

/// The patterns of both lists.
fn lists_of(alloc: Global, options: &BuildOptions<'_>) -> Result<Lists, OptionFault>
    ensures run_time { IfOk result (λ lists. lists.run_time ≡ patterns_in (text_of options.now.run_time)) }
    ensures build_time { IfOk result (λ lists. lists.build_time ≡ patterns_in (text_of options.now.build_time)) }
    ensures run_list { OnOk result (IsRead (text_of options.now.run_time)) }
    ensures build_list { OnOk result (IsRead (text_of options.now.build_time)) }
    ensures fault { IfErr result (λ fault. (fault ≡ OptionFault.Memory)
        ⊎ ListsFail (text_of options.now.run_time) (text_of options.now.build_time) fault) }
{
    let run_time = patterns_of(alloc, options.run_time)?;
    let build_time = patterns_of(alloc, options.build_time)?;
    Ok(Lists {
        run_time,
        build_time,
    })
}

/// What options ask for, and the verdicts on all classes.
#[derive(Drop)]
pub(crate) struct AskedOptions {
    /// The classes that are forced to run time.
    pub forced: Forced,
    /// The classes that are demanded at build time.
    pub demand: Demand,
    pub verdicts: Verdicts,
}

/// The verdicts on all classes, where it is known which are forced to run time and which demanded.
fn ask_judged(
    alloc: Global,
    program: &Program,
    forced: Forced,
    demand: Demand,
) -> Result<AskedOptions, BuildFault>
    ensures asked { IfOk result (λ asked. (asked.forced ≡ forced) × (asked.demand ≡ demand)
        × AreVerdicts program.now forced asked.verdicts) }
    ensures memory { IfErr result (λ fault. fault ≡ Memory) }
{
    match judge(alloc, program, &forced) {
        Ok(verdicts) => Ok(AskedOptions {
            forced,
            demand,
            verdicts,
        }),
        Err(AllocError) => Err(BuildFault::Memory),
    }
}

/// What options ask for, where it is known which classes are forced to run time.
fn ask_forced(
    alloc: Global,
    program: &Program,
    forced: Forced,
    build_time: &Patterns,
) -> Result<AskedOptions, BuildFault>
    ensures asked { IfOk result (AsksOf program.now build_time.now forced) }
    ensures fault { IfErr result
        (λ fault. (fault ≡ Memory) ⊎ IsOption (DemandFails program.now.family build_time.now forced) fault) }
{
    match demand(alloc, program, build_time, &forced) {
        Ok(demand) => ask_judged(alloc, program, forced, demand),
        Err(fault) => Err(BuildFault::of_option(fault)),
    }
}

/// What the patterns of both lists ask for.
fn ask_by(alloc: Global, program: &Program, lists: &Lists) -> Result<AskedOptions, BuildFault>
    ensures asked { IfOk result (AsksBy program.now lists.now.run_time lists.now.build_time) }
    ensures fault { IfErr result (λ fault. (fault ≡ Memory)
        ⊎ IsOption (Always (ForcingFails program.now lists.now.run_time lists.now.build_time)) fault) }
{
    match force(alloc, program, &lists.run_time) {
        Ok(forced) => ask_forced(alloc, program, forced, &lists.build_time),
        Err(fault) => Err(BuildFault::of_option(fault)),
    }
}

/// What options ask for.
pub(crate) fn ask(
    alloc: Global,
    program: &Program,
    options: &BuildOptions<'_>,
) -> Result<AskedOptions, BuildFault>
    ensures asked { IfOk result
        (IsAsked program.now (text_of options.now.run_time) (text_of options.now.build_time)) }
    ensures fault { IfErr result (λ fault. (fault ≡ Memory) ⊎ IsOption (Always (OptionsFail program.now
        (text_of options.now.run_time) (text_of options.now.build_time))) fault) }
{
    match lists_of(alloc, options) {
        Ok(lists) => ask_by(alloc, program, &lists),
        Err(fault) => Err(BuildFault::of_option(fault)),
    }
}
