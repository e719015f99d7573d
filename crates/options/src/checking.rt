//! Whether the classes that are demanded at build time are initialized then.

ghost use Rattle.std.specs.Prelude.{◌≡◌, ◌⊎◌, ◌<◌, length, IfErr, IfOk, OnOk};
ghost use Rattle.wave_scheduler.specs.Outcomes.{settled_of};
ghost use Rattle.options.specs.Demands.{AreMet, IsUnmet};
ghost use Rattle.options.specs.steps.Unmet.{IsUnmetOf, NamesUnmet};
ghost use Rattle.options.specs.declared.fault.OptionFault.TheVariants.{Memory};

use crate::demanded::Demand;
use crate::fault::{Cause, OptionFault};
use crate::names::{class_name, used_name};
use initializer_analysis::verdict::{Reason, Verdict};
use loading::family::Family;
use program::Program;
use std::alloc::{AllocError, Global};
use wave_scheduler::outcome::Settled;

/// Why a class is not accepted, if it is demanded and is not.
fn unmet(verdicts: &[Verdict], demand: &Demand, class: u32) -> Option<Reason>
    requires { class < length verdicts.now }
    ensures { IsUnmetOf verdicts.now demand.now class result }
{
    if !demand.has(class) {
        return None;
    }
    match verdicts[class as usize] {
        Verdict::Wave(_) => None,
        Verdict::Refused(reason) => Some(reason),
    }
}

/// The fault of a class that is demanded and not accepted for this reason.
fn demanded(
    alloc: Global,
    family: &Family,
    class: u32,
    reason: Reason,
) -> Result<OptionFault, AllocError>
    requires { class < length family.now }
    ensures { IfOk result (NamesUnmet family.now class reason) }
{
    let name = class_name(alloc, family, class)?;
    let used = used_name(alloc, family, reason)?;
    Ok(OptionFault::Demanded(name, Cause { reason, used }))
}

/// Checks that each class that is demanded is accepted.
///
/// # Errors
/// `Demanded` of the least class that is not, with the cause; and `Memory` where memory runs out.
pub fn check(
    alloc: Global,
    program: &Program,
    settled: &Settled,
    demand: &Demand,
) -> Result<(), OptionFault>
    requires { length settled.now.verdicts ≡ length program.now.classes }
    ensures met { OnOk result (AreMet program.now demand.now (settled_of settled.now)) }
    ensures fault { IfErr result
        (λ fault. (fault ≡ Memory) ⊎ IsUnmet program.now demand.now (settled_of settled.now) fault) }
{
    let _tables = program.classes();
    let verdicts = settled.verdicts.as_slice();
    for class in 0..program.given_count() {
        match unmet(verdicts, demand, class) {
            Some(reason) => return Err(demanded(alloc, program.family(), class, reason)?),
            None => {}
        }
    }
    Ok(())
}
