//! Classes that stay at run time for others' sake.

ghost use Rattle.std.specs.Prelude.{◌≡◌, ℕ, length, slice_get, option_and_then, map, IfOk};
ghost use Rattle.program.specs.Tables.{Tables};
ghost use Rattle.use_graph.specs.Uses.{IsUse};
ghost use Rattle.use_graph.specs.steps.Bodies.{IsUseGraph};
ghost use Rattle.explain.specs.Chains.{AreFirstUses, DependOnUses, IsChain, Chained};
ghost use Rattle.explain.specs.steps.Refused.{depended, is_refused};

use graph::components_of;
use initializer_analysis::first_refused;
use initializer_analysis::verdict::{Reason, Verdict};
use program::Program;
use std::alloc::{AllocError, Global};
use use_graph::UseGraph;

/// The verdict on a class, if it is given.
pub(crate) fn verdict_of(verdicts: &[Verdict], class: u32) -> Option<Verdict>
    ensures { result ≡ slice_get verdicts.now class }
{
    verdicts.get(class as usize).copied()
}

/// Whether a class is not accepted.
fn is_refused(verdict: Verdict) -> bool
    ensures { result ≡ is_refused verdict }
{
    match verdict {
        Verdict::Wave(_) => false,
        Verdict::Refused(_) => true,
    }
}

/// Which classes are not accepted, by these verdicts.
fn refused_by(alloc: Global, verdicts: &[Verdict]) -> Result<Vec<bool>, AllocError>
    ensures { IfOk result (λ refused. refused.items ≡ map is_refused verdicts.now) }
{
    let mut refused = Vec::with_capacity(alloc, verdicts.len())?;
    for verdict in verdicts {
        refused.push(is_refused(*verdict))?;
    }
    Ok(refused)
}

/// For each class the first that it uses and that is not accepted, by the last verdicts.
///
/// # Errors
/// Where memory runs out.
pub fn first_uses(
    alloc: Global,
    program: &Program,
    uses: &UseGraph,
    verdicts: &[Verdict],
) -> Result<Vec<Option<u32>>, AllocError>
    requires uses { IsUseGraph program.now uses.now }
    requires verdicts { length verdicts.now ≡ length program.now.classes }
    ensures { IfOk result (λ first. AreFirstUses program.now verdicts.now first.items) }
{
    let components = components_of(alloc, &uses.calls)?;
    let refused = refused_by(alloc, verdicts)?;
    let first = first_refused(alloc, program, uses, &components, &refused)?;
    Ok(first)
}

/// The class on which one of this verdict depends, if it does.
pub(crate) fn depended(verdict: Verdict) -> Option<u32>
    ensures { result ≡ depended verdict }
{
    match verdict {
        Verdict::Refused(Reason::DependsOn(next)) => Some(next),
        _ => None,
    }
}

/// The class on which a class depends, if it does.
fn next_of(verdicts: &[Verdict], class: u32) -> Option<u32>
    ensures { result ≡ option_and_then depended (slice_get verdicts.now class) }
{
    match verdict_of(verdicts, class) {
        Some(verdict) => depended(verdict),
        None => None,
    }
}

/// The chain of classes from one on, each the first that the one before uses and that is not accepted, down to one
/// that has a reason of its own.
///
/// # Errors
/// Where memory runs out.
pub fn chain_of(alloc: Global, verdicts: &[Verdict], class: u32) -> Result<Vec<u32>, AllocError>
    ensures chain { IfOk result (λ chain. IsChain verdicts.now class chain.items) }
    // Where classes depend on what they use, each uses the next.
    ensures uses { IfOk result
        (λ chain. (P : Tables) → DependOnUses P verdicts.now → (last : ℕ) × Chained (IsUse P) class chain.items last) }
{
    let mut chain = Vec::new(alloc);
    chain.push(class)?;
    let mut last = class;
    for _ in 0..verdicts.len() {
        let Some(next) = next_of(verdicts, last) else {
            return Ok(chain);
        };
        chain.push(next)?;
        last = next;
    }
    Ok(chain)
}
