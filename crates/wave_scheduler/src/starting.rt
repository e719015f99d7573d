//! What is known of classes before any initializer runs.

ghost use Rattle.std.specs.Prelude.{◌≡◌, ℕ, ◌<◌, ◌≤◌, ◌^◌, IfOk};
ghost use Rattle.initializer_analysis.specs.Verdicts.{HasWave};
ghost use Rattle.initializer_analysis.specs.declared.verdict.Verdict.TheVariants.{Wave};
ghost use Rattle.wave_scheduler.specs.Outcomes.{settled_of};
ghost use Rattle.wave_scheduler.specs.steps.Waves.{StartsFrom};

use crate::outcome::Settled;
use initializer_analysis::verdict::{Verdict, Verdicts};
use region_shape::regions::Regions;
use std::alloc::{AllocError, Global};

/// A copy of verdicts, to be changed.
fn copy_of(alloc: Global, verdicts: &[Verdict]) -> Result<Verdicts, AllocError>
    ensures { IfOk result (λ copy. copy ≡ verdicts.now) }
{
    let mut copy = Vec::with_capacity(alloc, verdicts.len())?;
    copy.extend_from_slice(verdicts)?;
    Ok(Verdicts::of(copy))
}

/// All classes as their verdicts say, and no regions.
pub(crate) fn start(alloc: Global, verdicts: &[Verdict]) -> Result<Settled, AllocError>
    ensures { IfOk result (λ settled. StartsFrom verdicts.now (settled_of settled)) }
{
    let regions = Regions::of_classes(alloc, verdicts.len())?;
    match copy_of(alloc, verdicts) {
        Ok(verdicts) => Ok(Settled { verdicts, regions }),
        Err(error) => Err(error),
    }
}

/// With one more verdict: above its wave, if it has one.
fn count_with(count: usize, verdict: Verdict) -> usize
    requires { (n : ℕ) → verdict ≡ Wave n → n < 2 ^ 32 }
    ensures more { count ≤ result }
    ensures above { (n : ℕ) → verdict ≡ Wave n → n < result }
{
    match verdict {
        Verdict::Wave(wave) => count.max(wave + 1),
        Verdict::Refused(_) => count,
    }
}

/// How many waves there are: all are below this number.
pub(crate) fn wave_count(verdicts: &[Verdict]) -> usize
    requires { (c n : ℕ) → HasWave verdicts.now c n → n < 2 ^ 32 }
    ensures { (c n : ℕ) → HasWave verdicts.now c n → n < result }
{
    let mut count = 0;
    for verdict in verdicts {
        count = count_with(count, *verdict);
    }
    count
}
