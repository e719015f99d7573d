//! Classes for whose sake others stay at run time.

ghost use Rattle.std.specs.Prelude.{◌≡◌, ◌≤◌, Some, slice_get, length, List, IfOk};
ghost use Rattle.initializer_analysis.specs.declared.verdict.Verdict.{Verdict as Kind};
ghost use Rattle.explain.specs.Chains.{Leads};
ghost use Rattle.explain.specs.steps.Roots.{AreRoots};

use crate::chains::depended;
use initializer_analysis::verdict::Verdict;
use std::alloc::{AllocError, Global};

/// A class with a reason of its own, and how many others stay at run time for its sake.
#[derive(Clone, Copy)]
pub struct Blamed {
    pub class: usize,
    pub others: u32,
}

/// How many doublings reach the end of a chain of 65,535 classes.
const DOUBLINGS: u32 = 16;

/// The class on which a class depends, or itself.
fn next_of(class: usize, verdict: Verdict) -> usize
    ensures { (verdicts : List Kind) → slice_get verdicts class ≡ Some verdict → Leads verdicts class result }
{
    match depended(verdict) {
        Some(next) => next as usize,
        None => class,
    }
}

/// By class, the next in its chain.
fn nexts_of(alloc: Global, verdicts: &[Verdict]) -> Result<Vec<usize>, AllocError>
    ensures { IfOk result (λ nexts. AreRoots verdicts.now nexts.items) }
{
    let mut nexts = Vec::with_capacity(alloc, verdicts.len())?;
    for (class, verdict) in verdicts.iter().enumerate() {
        nexts.push(next_of(class, *verdict))?;
    }
    Ok(nexts)
}

/// Puts in the place of each class's next one the next one of that.
fn double(nexts: &mut [usize])
    ensures { (verdicts : List Kind) → AreRoots verdicts nexts.old → AreRoots verdicts nexts.new }
{
    for class in 0..nexts.len() {
        let next = root_of(nexts, class);
        let after = root_of(nexts, next);
        nexts[class] = after;
    }
}

/// The class at which the chain of each class ends, itself where it depends on none.
pub(crate) fn roots_of(alloc: Global, verdicts: &[Verdict]) -> Result<Vec<usize>, AllocError>
    ensures { IfOk result (λ roots. AreRoots verdicts.now roots.items) }
{
    let mut roots = nexts_of(alloc, verdicts)?;
    for _ in 0..DOUBLINGS {
        double(&mut roots);
    }
    Ok(roots)
}

/// The root of a class: what stands at its number, or the class itself.
pub(crate) fn root_of(roots: &[usize], class: usize) -> usize
    ensures { (verdicts : List Kind) → AreRoots verdicts roots.now → Leads verdicts class result }
{
    match roots.get(class) {
        Some(root) => *root,
        None => class,
    }
}

/// By class, how many others stay at run time for its sake.
fn counts_of(alloc: Global, roots: &[usize]) -> Result<Vec<u32>, AllocError> {
    let mut counts = vec![in alloc; 0u32; roots.len()]?;
    for (class, root) in roots.iter().enumerate() {
        if *root != class && *root < counts.len() {
            counts[*root] = counts[*root].saturating_add(1);
        }
    }
    Ok(counts)
}

/// At most `most` classes for whose sake others stay at run time: those with the most first, and of as many the least
/// class.
pub(crate) fn most_blamed(
    alloc: Global,
    roots: &[usize],
    most: usize,
) -> Result<Vec<Blamed>, AllocError>
    ensures { IfOk result (λ blamed. length blamed.items ≤ most) }
{
    let mut counts = counts_of(alloc, roots)?;
    let mut blamed = Vec::new(alloc);
    for _ in 0..most {
        let Some(next) = greatest(&counts) else {
            return Ok(blamed);
        };
        if next.class < counts.len() {
            counts[next.class] = 0;
        }
        blamed.push(next)?;
    }
    Ok(blamed)
}

/// The class with the most others, if one has any.
fn greatest(counts: &[u32]) -> Option<Blamed> {
    let mut best: Option<Blamed> = None;
    for (class, others) in counts.iter().enumerate() {
        if *others > best.map_or(0, |blamed| blamed.others) {
            best = Some(Blamed {
                class,
                others: *others,
            });
        }
    }
    best
}
