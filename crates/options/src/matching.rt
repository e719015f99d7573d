//! The classes that patterns match.

ghost use Rattle.std.specs.Prelude.{◌≡◌, ◌⊎◌, ℕ, ◌<◌, IfErr, IfOk, OnOk, length, map, replicate, string_bytes, false};
ghost use Rattle.std.specs.List.{All};
ghost use Rattle.options.specs.Patterns.{spelled};
ghost use Rattle.options.specs.Classes.{AreClasses, IsMatched};
ghost use Rattle.options.specs.Faults.{PatternsFail, IsKnown};
ghost use Rattle.options.specs.steps.Flags.{Grow};
ghost use Rattle.options.specs.steps.Names.{AreSorted, IsRunOf};
ghost use Rattle.options.specs.steps.Covering.{CoversMore, IsMatchedAt, IsKnownIn, IsMatchedByOne, IsMatchedClass};
ghost use Rattle.options.specs.steps.Covering.{IsCoveredClass, IsOfUnknown, IsOfFirstUnknown};
ghost use Rattle.options.specs.steps.Texts.{Text};
ghost use Rattle.options.specs.declared.fault.OptionFault.TheVariants.{Memory, Unknown};

use crate::covering::{cover, flag_covered};
use crate::fault::OptionFault;
use crate::patterns::Patterns;
use crate::sorted_names::{DottedName, NameRange, run_of, sorted_names};
use classfile::{ClassName, ModifiedUtf8};
use loading::family::Family;
use std::alloc::{AllocError, Global};

/// By class: whether a pattern matches it. It takes time near linear in the names of the classes and the patterns.
///
/// # Errors
/// `Unknown` of the first pattern that matches no class, and `Memory`.
pub(crate) fn matched_in(
    alloc: Global,
    family: &Family,
    patterns: &Patterns,
) -> Result<Vec<bool>, OptionFault>
    ensures len { IfOk result (λ flags. length flags.items ≡ length family.now) }
    ensures flags { IfOk result (λ flags. AreClasses flags.items (IsMatched family.now patterns.now)) }
    ensures known { OnOk result (All (IsKnown family.now) patterns.now) }
    ensures fault { IfErr result (λ fault. (fault ≡ Memory) ⊎ PatternsFail family.now patterns.now fault) }
{
    match sorted_names(alloc, family) {
        Ok(names) => matched_among(alloc, &names, patterns.texts()),
        Err(_) => Err(OptionFault::Memory),
    }
}

/// By class: whether a pattern matches its name, of these names.
fn matched_among(
    alloc: Global,
    names: &[DottedName],
    patterns: &[String],
) -> Result<Vec<bool>, OptionFault>
    requires sorted { AreSorted names.now }
    requires within { All (λ n. n.class < length names.now) names.now }
    ensures len { IfOk result (λ flags. length flags.items ≡ length names.now) }
    ensures flags { IfOk result (λ flags.
        AreClasses flags.items (IsMatchedClass names.now (map string_bytes patterns.now))) }
    ensures known { OnOk result (All (IsKnownIn names.now) (map string_bytes patterns.now)) }
    ensures fault { IfErr result
        (λ fault. (fault ≡ Memory) ⊎ IsOfFirstUnknown names.now (map string_bytes patterns.now) fault) }
{
    match covered_by(alloc, names, patterns) {
        Ok(ends) => flags_of(alloc, names, &ends),
        Err(fault) => Err(fault),
    }
}

/// The flags of the classes whose names stand at covered places.
fn flags_of(alloc: Global, names: &[DottedName], ends: &[usize]) -> Result<Vec<bool>, OptionFault>
    requires len { length ends.now ≡ length names.now }
    requires within { All (λ n. n.class < length names.now) names.now }
    ensures len { IfOk result (λ flags. length flags.items ≡ length names.now) }
    ensures flags { IfOk result (λ flags. AreClasses flags.items (IsCoveredClass names.now ends.now)) }
    ensures fault { IfErr result (λ fault. fault ≡ Memory) }
{
    match no_flags(alloc, names.len()) {
        Ok(flags) => Ok(covered_flags(names, ends, flags)),
        Err(_) => Err(OptionFault::Memory),
    }
}

/// No flags, for `count` classes.
fn no_flags(alloc: Global, count: usize) -> Result<Vec<bool>, AllocError>
    ensures { IfOk result (λ flags. flags.items ≡ replicate count false) }
{
    vec![in alloc; false; count]
}

/// Flags, and those of the classes whose names stand at covered places.
fn covered_flags(names: &[DottedName], ends: &[usize], flags: Vec<bool>) -> Vec<bool>
    requires len { length ends.now ≡ length names.now }
    requires within { All (λ n. n.class < length flags.items) names.now }
    ensures { Grow flags.items result.items (IsCoveredClass names.now ends.now) }
{
    let mut flags = flags;
    flag_covered(names, ends, &mut flags);
    flags
}

/// By place: where the longest run from there ends that a pattern matches.
fn covered_by(
    alloc: Global,
    names: &[DottedName],
    patterns: &[String],
) -> Result<Vec<usize>, OptionFault>
    requires { AreSorted names.now }
    ensures covers { IfOk result (λ ends. CoversMore (replicate (length names.now) 0) ends.items
        (IsMatchedByOne names.now (map string_bytes patterns.now))) }
    ensures known { OnOk result (All (IsKnownIn names.now) (map string_bytes patterns.now)) }
    ensures fault { IfErr result
        (λ fault. (fault ≡ Memory) ⊎ IsOfFirstUnknown names.now (map string_bytes patterns.now) fault) }
{
    let mut ends = vec![in alloc; 0; names.len()]?;
    match cover_all(alloc, names, patterns, &mut ends) {
        Ok(()) => Ok(ends),
        Err(fault) => Err(fault),
    }
}

/// Covers the names that patterns match.
fn cover_all(
    alloc: Global,
    names: &[DottedName],
    patterns: &[String],
    ends: &mut [usize],
) -> Result<(), OptionFault>
    requires sorted { AreSorted names.now }
    requires len { length ends.old ≡ length names.now }
    ensures covers { OnOk result
        (CoversMore ends.old ends.new (IsMatchedByOne names.now (map string_bytes patterns.now))) }
    ensures known { OnOk result (All (IsKnownIn names.now) (map string_bytes patterns.now)) }
    ensures fault { IfErr result
        (λ fault. (fault ≡ Memory) ⊎ IsOfFirstUnknown names.now (map string_bytes patterns.now) fault) }
{
    for pattern in patterns {
        cover_known(alloc, names, pattern, ends)?;
    }
    Ok(())
}

/// Covers the names that a pattern matches, of which there have to be some.
fn cover_known(
    alloc: Global,
    names: &[DottedName],
    pattern: &str,
    ends: &mut [usize],
) -> Result<(), OptionFault>
    requires sorted { AreSorted names.now }
    requires len { length ends.old ≡ length names.now }
    ensures covers { OnOk result (CoversMore ends.old ends.new (IsMatchedAt names.now pattern.now)) }
    ensures known { OnOk result (IsKnownIn names.now pattern.now) }
    ensures fault { IfErr result (λ fault. (fault ≡ Memory) ⊎ IsOfUnknown names.now pattern.now fault) }
{
    let run = matching_run(alloc, names, pattern)?;
    if run.first < run.end {
        cover(run, ends);
        return Ok(());
    }
    Err(unknown(alloc, pattern))
}

/// Where the names stand that a pattern matches.
fn matching_run(alloc: Global, names: &[DottedName], pattern: &str) -> Result<NameRange, AllocError>
    requires { AreSorted names.now }
    ensures { IfOk result (IsRunOf names.now (spelled pattern.now)) }
{
    let spelled = spelled(alloc, pattern)?;
    run_of(alloc, names, spelled.bytes())
}

/// A text as class files spell it.
fn spelled(alloc: Global, text: &str) -> Result<ModifiedUtf8, AllocError>
    ensures { IfOk result (λ bytes. bytes ≡ spelled text.now) }
{
    let name = ClassName::from_text(alloc, text)?;
    name.modified_utf8(alloc)
}

/// The fault of a pattern that matches no class.
fn unknown(alloc: Global, pattern: &str) -> OptionFault
    ensures { (result ≡ Memory) ⊎ ((text : Text) × (string_bytes text ≡ pattern.now) × (result ≡ Unknown text)) }
{
    match String::from_str(alloc, pattern) {
        Ok(text) => OptionFault::Unknown(text),
        Err(_) => OptionFault::Memory,
    }
}
