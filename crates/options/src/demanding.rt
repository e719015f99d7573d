//! The classes that a list of patterns demands at build time.

ghost use Rattle.std.specs.Prelude.{◌≡◌, ◌⊎◌, ◌<◌, ◌↔◌, length, IfErr, IfOk, IfSome, IsTrue, OnOk, MatchOption};
ghost use Rattle.std.specs.List.{All};
ghost use Rattle.options.specs.Classes.{AreClasses, IsAtOrAbove, IsDemanded};
ghost use Rattle.options.specs.Faults.{DemandFails, PatternsFail, AreApart, IsBoth, IsKnown, IsLeastBoth, IsOfBoth};
ghost use Rattle.options.specs.steps.Flags.{IsFlagged};
ghost use Rattle.options.specs.declared.fault.OptionFault.TheVariants.{Memory};

use crate::chains::flag_above;
use crate::demanded::Demand;
use crate::fault::OptionFault;
use crate::matching::matched_in;
use crate::names::class_name;
use crate::patterns::Patterns;
use initializer_analysis::forced::Forced;
use loading::family::Family;
use program::Program;
use std::alloc::Global;

/// The classes that a list of patterns demands at build time: those that a pattern matches, and all above them.
///
/// # Errors
/// `Unknown` of the first pattern that matches no class; else `Both` of the least class that is demanded and forced;
/// and `Memory` where memory runs out.
pub fn demand(
    alloc: Global,
    program: &Program,
    patterns: &Patterns,
    forced: &Forced,
) -> Result<Demand, OptionFault>
    ensures demanded { IfOk result (λ demand. AreClasses demand (IsDemanded program.now.family patterns.now)) }
    // There is an answer just where each pattern matches a class and none is forced, but for memory.
    ensures known { OnOk result (All (IsKnown program.now.family) patterns.now) }
    ensures apart { OnOk result (AreApart (IsDemanded program.now.family patterns.now) forced.now) }
    ensures fault { IfErr result
        (λ fault. (fault ≡ Memory) ⊎ DemandFails program.now.family patterns.now forced.now fault) }
{
    let family = program.family();
    match demanded_in(alloc, family, patterns) {
        Ok(flags) => demand_of(alloc, family, flags, forced),
        Err(fault) => Err(fault),
    }
}

/// By class: whether a list of patterns demands it.
fn demanded_in(
    alloc: Global,
    family: &Family,
    patterns: &Patterns,
) -> Result<Vec<bool>, OptionFault>
    ensures len { IfOk result (λ flags. length flags.items ≡ length family.now) }
    ensures demanded { IfOk result (λ flags. AreClasses flags.items (IsDemanded family.now patterns.now)) }
    ensures known { OnOk result (All (IsKnown family.now) patterns.now) }
    ensures fault { IfErr result (λ fault. (fault ≡ Memory) ⊎ PatternsFail family.now patterns.now fault) }
{
    match matched_in(alloc, family, patterns) {
        Ok(flags) => Ok(flagged_above(family, flags)),
        Err(fault) => Err(fault),
    }
}

/// The flags of the classes at and above the flagged ones.
fn flagged_above(family: &Family, flags: Vec<bool>) -> Vec<bool>
    requires { length flags.items ≡ length family.now }
    ensures len { length result.items ≡ length family.now }
    ensures flags { AreClasses result.items (IsAtOrAbove family.now (IsFlagged flags.items)) }
{
    let mut flags = flags;
    flag_above(family, &mut flags);
    flags
}

/// The flagged classes, if none of them is forced.
fn demand_of(
    alloc: Global,
    family: &Family,
    flags: Vec<bool>,
    forced: &Forced,
) -> Result<Demand, OptionFault>
    requires { length flags.items ≡ length family.now }
    ensures demand { IfOk result (λ demand. demand ≡ flags.items) }
    ensures apart { OnOk result (AreApart (IsFlagged flags.items) forced.now) }
    ensures fault { IfErr result (λ fault. (fault ≡ Memory)
        ⊎ IsOfBoth family.now (IsFlagged flags.items) forced.now fault) }
{
    match first_both(family, &flags, forced) {
        Some(class) => Err(OptionFault::Both(class_name(alloc, family, class)?)),
        None => Ok(Demand::of_flags(flags)),
    }
}

/// The first flagged class that is forced.
fn first_both(family: &Family, flags: &[bool], forced: &Forced) -> Option<u32>
    requires { length flags.now ≡ length family.now }
    ensures both { MatchOption result (AreApart (IsFlagged flags.now) forced.now)
        (IsLeastBoth (IsFlagged flags.now) forced.now) }
    ensures within { IfSome result (λ class. class < length family.now) }
{
    let count = family.classes().len() as u32;
    for class in 0..count {
        if is_both(flags, forced, class) {
            return Some(class);
        }
    }
    None
}

/// Whether a class is flagged and forced.
fn is_both(flags: &[bool], forced: &Forced, class: u32) -> bool
    requires { class < length flags.now }
    ensures { IsTrue result ↔ IsBoth (IsFlagged flags.now) forced.now class }
{
    flags[class as usize] && forced.has(class)
}
