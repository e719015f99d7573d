//! Which names runs of names cover.

ghost use Rattle.std.specs.Prelude.{◌≡◌, ℕ, ◌<◌, length};
ghost use Rattle.std.specs.List.{All};
ghost use Rattle.options.specs.steps.Flags.{Grow};
ghost use Rattle.options.specs.steps.Names.{IsInRun};
ghost use Rattle.options.specs.steps.Covering.{CoversMore, IsCoveredClass};

use crate::flags::flag;
use crate::sorted_names::{DottedName, NameRange};

/// Covers the places of a run: where a run from its first place ends is no earlier than its own end.
pub(crate) fn cover(run: NameRange, ends: &mut [usize])
    requires { run.first < length ends.old }
    ensures { CoversMore ends.old ends.new (IsInRun run) }
{
    if ends[run.first] < run.end {
        ends[run.first] = run.end;
    }
}

/// Flags the classes whose names stand at covered places.
pub(crate) fn flag_covered(names: &[DottedName], ends: &[usize], flags: &mut [bool])
    requires len { length ends.now ≡ length names.now }
    requires within { All (λ n. n.class < length flags.old) names.now }
    ensures { Grow flags.old flags.new (IsCoveredClass names.now ends.now) }
{
    let mut end = 0;
    for place in 0..names.len() {
        end = ends[place].max(end);
        if place < end {
            flag(flags, names[place].class as usize);
        }
    }
}
