//! Which classes use one that is not accepted.

ghost use Rattle.std.specs.Prelude.{◌≡◌, length, map, IfOk, OnOk};
ghost use Rattle.use_graph.specs.steps.Bodies.{IsUseGraph};
ghost use Rattle.wave_scheduler.specs.Outcomes.{outcome_of, settled_of};
ghost use Rattle.wave_scheduler.specs.steps.Waves.{dependent, HasFirst};
ghost use Rattle.wave_scheduler.specs.steps.Finding.{is_refused, AreFirstIn, GivesEachFirst};
ghost use Rattle.wave_scheduler.specs.steps.Plans.{GivesFirst};

use crate::outcome::Settled;
use graph::components_of;
use initializer_analysis::first_refused;
use initializer_analysis::verdict::{Reason, Verdict, Verdicts};
use program::Program;
use std::alloc::{AllocError, Global};
use use_graph::UseGraph;

/// Whether a class is not accepted.
fn is_refused(verdict: Verdict) -> bool
    ensures { result ≡ is_refused verdict }
{
    match verdict {
        Verdict::Wave(_) => false,
        Verdict::Refused(_) => true,
    }
}

/// Which classes are not accepted.
fn refused_flags(alloc: Global, verdicts: &[Verdict]) -> Result<Vec<bool>, AllocError>
    ensures { IfOk result (λ flags. flags.items ≡ map is_refused verdicts.now) }
{
    let mut flags = Vec::with_capacity(alloc, verdicts.len())?;
    for verdict in verdicts {
        flags.push(is_refused(*verdict))?;
    }
    Ok(flags)
}

/// For each class the first that is not accepted of those that it uses, if there is one.
fn first_in(
    alloc: Global,
    program: &Program,
    uses: &UseGraph,
    settled: &Settled,
) -> Result<Vec<Option<u32>>, AllocError>
    requires uses { IsUseGraph program.now uses.now }
    requires count { length settled.now.verdicts ≡ length program.now.classes }
    ensures { IfOk result (λ first. AreFirstIn program.now (settled_of settled.now) first.items) }
{
    let flags = refused_flags(alloc, settled.verdicts.as_slice())?;
    let calls = components_of(alloc, &uses.calls)?;
    first_refused(alloc, program, uses, &calls, flags.as_slice())
}

/// The verdict on a class, where this is the first refused class that it uses.
fn dependent_verdict(first: Option<u32>, verdict: Verdict) -> Verdict
    ensures { outcome_of result ≡ dependent first (outcome_of verdict) }
{
    match (first, verdict) {
        (Some(class), Verdict::Refused(Reason::DependsOn(_))) => {
            Verdict::Refused(Reason::DependsOn(class))
        }
        _ => verdict,
    }
}

/// Gives each class that depends on a refused one the first such as its reason.
fn give_each_first(first: &[Option<u32>], count: u32, verdicts: &mut Verdicts)
    requires count { length verdicts.old ≡ count }
    requires first { length first.now ≡ count }
    ensures { GivesEachFirst first.now (map outcome_of verdicts.old) (map outcome_of verdicts.new) }
{
    for class in 0..count {
        let place = class as usize;
        let verdict = dependent_verdict(first[place], verdicts.as_slice()[place]);
        verdicts.put(class, verdict);
    }
}

/// Gives each class that depends on a refused one the first such as its reason, where all classes are settled.
fn give_first(first: &[Option<u32>], count: u32, settled: &mut Settled)
    requires count { length settled.old.verdicts ≡ count }
    requires first { length first.now ≡ count }
    ensures { HasFirst first.now (settled_of settled.old) (settled_of settled.new) }
{
    give_each_first(first, count, &mut settled.verdicts);
}

/// Gives each class that depends on refused ones the first such as its reason, once all waves are tried.
pub(crate) fn give_first_refused(
    alloc: Global,
    program: &Program,
    uses: &UseGraph,
    settled: &mut Settled,
) -> Result<(), AllocError>
    requires uses { IsUseGraph program.now uses.now }
    requires count { length settled.old.verdicts ≡ length program.now.classes }
    ensures { OnOk result (GivesFirst program.now (settled_of settled.old) (settled_of settled.new)) }
{
    let count = program.given_count();
    let first = first_in(alloc, program, uses, settled)?;
    give_first(first.as_slice(), count, settled);
    Ok(())
}
