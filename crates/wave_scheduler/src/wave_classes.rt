//! The classes of each wave.

ghost use Rattle.std.specs.Prelude.{◌≡◌, ℕ, ◌<◌, ◌^◌, [], length, replicate, IfOk, OnOk};
ghost use Rattle.graph.specs.Rows.{rows_of};
ghost use Rattle.initializer_analysis.specs.Verdicts.{HasWave};
ghost use Rattle.initializer_analysis.specs.declared.verdict.Verdict.TheVariants.{Wave};
ghost use Rattle.wave_scheduler.specs.steps.WaveMembers.{AreMembersOfAll, AreMembersOfAllBelow, JoinsWave};

use crate::starting::wave_count;
use initializer_analysis::verdict::Verdict;
use std::alloc::{AllocError, Global};

/// A number of waves, without classes.
fn empty_waves(alloc: Global, count: usize) -> Result<Vec<Vec<u32>>, AllocError>
    ensures { IfOk result (λ waves. rows_of waves.items ≡ replicate count []) }
{
    let mut waves = Vec::with_capacity(alloc, count)?;
    for _wave in 0..count {
        waves.push(Vec::new(alloc))?;
    }
    Ok(waves)
}

/// Adds a class to its wave, if it has one.
fn add_class(waves: &mut Vec<Vec<u32>>, class: u32, verdict: Verdict) -> Result<(), AllocError>
    requires { (n : ℕ) → verdict ≡ Wave n → n < length waves.old.items }
    ensures { OnOk result (JoinsWave class verdict (rows_of waves.old.items) (rows_of waves.new.items)) }
{
    match verdict {
        Verdict::Wave(wave) => {
            waves[wave].push(class)?;
            Ok(())
        }
        Verdict::Refused(_) => Ok(()),
    }
}

/// Adds the classes below a limit to their waves.
fn add_classes(
    waves: &mut Vec<Vec<u32>>,
    verdicts: &[Verdict],
    count: u32,
) -> Result<(), AllocError>
    requires none { rows_of waves.old.items ≡ replicate (length waves.old.items) [] }
    requires count { length verdicts.now ≡ count }
    requires above { (c n : ℕ) → HasWave verdicts.now c n → n < length waves.old.items }
    ensures { OnOk result (AreMembersOfAllBelow verdicts.now count (length waves.old.items) (rows_of waves.new.items)) }
{
    for class in 0..count {
        let verdict = verdicts[class as usize];
        add_class(waves, class, verdict)?;
    }
    Ok(())
}

/// The classes of each wave, in the order of their numbers.
pub(crate) fn classes_by_wave(
    alloc: Global,
    verdicts: &[Verdict],
    count: u32,
) -> Result<Vec<Vec<u32>>, AllocError>
    requires count { length verdicts.now ≡ count }
    requires waves { (c n : ℕ) → HasWave verdicts.now c n → n < 2 ^ 32 }
    ensures { IfOk result (λ waves. AreMembersOfAll verdicts.now (rows_of waves.items)) }
{
    let mut waves = empty_waves(alloc, wave_count(verdicts))?;
    match add_classes(&mut waves, verdicts, count) {
        Ok(()) => Ok(waves),
        Err(error) => Err(error),
    }
}
