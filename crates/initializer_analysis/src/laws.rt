//! Laws of verdicts.

ghost use Rattle.initializer_analysis.specs.Verdicts.{HasVerdicts, OneVerdict, WavesFall};

/// There are verdicts on the classes of each program, whichever of them are forced.
pub fn has_verdicts()
    ensures { HasVerdicts }
{}

/// Classes have one verdict each.
pub fn one_verdict()
    ensures { OneVerdict }
{}

/// Waves fall along uses.
pub fn waves_fall()
    ensures { WavesFall }
{}
