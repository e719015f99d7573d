//! The classes that a list of patterns forces to run time.

ghost use Rattle.std.specs.Prelude.{◌≡◌, ◌⊎◌, length, IfErr, IfOk, OnOk};
ghost use Rattle.std.specs.List.{All};
ghost use Rattle.options.specs.Classes.{AreClasses, IsAtOrBelow, IsForced};
ghost use Rattle.options.specs.Faults.{PatternsFail, IsKnown};
ghost use Rattle.options.specs.steps.Flags.{IsFlagged};
ghost use Rattle.options.specs.declared.fault.OptionFault.TheVariants.{Memory};

use crate::chains::flag_below;
use crate::fault::OptionFault;
use crate::matching::matched_in;
use crate::patterns::Patterns;
use initializer_analysis::forced::Forced;
use loading::family::Family;
use program::Program;
use std::alloc::Global;

/// The classes that a list of patterns forces to run time: those that a pattern matches, and all below them.
///
/// # Errors
/// `Unknown` of the first pattern that matches no class, and `Memory` where memory runs out.
pub fn force(alloc: Global, program: &Program, patterns: &Patterns) -> Result<Forced, OptionFault>
    ensures forced { IfOk result (λ forced. AreClasses forced (IsForced program.now.family patterns.now)) }
    // There is an answer just where each pattern matches a class, but for memory.
    ensures known { OnOk result (All (IsKnown program.now.family) patterns.now) }
    ensures fault { IfErr result
        (λ fault. (fault ≡ Memory) ⊎ PatternsFail program.now.family patterns.now fault) }
{
    let family = program.family();
    match matched_in(alloc, family, patterns) {
        Ok(flags) => Ok(forced_of(family, flags)),
        Err(fault) => Err(fault),
    }
}

/// The classes at and below the flagged ones.
fn forced_of(family: &Family, flags: Vec<bool>) -> Forced
    requires { length flags.items ≡ length family.now }
    ensures { AreClasses result (IsAtOrBelow family.now (IsFlagged flags.items)) }
{
    let mut flags = flags;
    flag_below(family, &mut flags);
    Forced::of_flags(flags)
}
