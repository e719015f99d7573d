//! The first steps of a schedule.

ghost use Rattle.std.specs.Prelude.{◌≡◌, ◌++◌, ◌∷◌, ◌==◌, [], OnOk, if◌then◌else◌, take};
ghost use Rattle.init_engine.specs.Schedules.{AreRuns, schedule_of};

use std::alloc::AllocError;

/// Adds a run of so many steps, if there are any.
fn add_last(runs: &mut Vec<(u32, u64)>, thread: u32, steps: u64) -> Result<(), AllocError>
    ensures { OnOk result (runs.new.items
        ≡ if steps == 0 then runs.old.items else runs.old.items ++ (thread, steps) ∷ []) }
{
    if steps == 0 {
        return Ok(());
    }
    runs.push((thread, steps))?;
    Ok(())
}

/// Adds the runs of the first steps of a schedule, at most so many, where there are no runs yet.
pub(crate) fn add_first(
    all: &[(u32, u64)],
    steps: u64,
    runs: &mut Vec<(u32, u64)>,
) -> Result<(), AllocError>
    requires none { runs.old.items ≡ [] }
    requires all { AreRuns all.now }
    ensures schedule { OnOk result (schedule_of runs.new.items ≡ take steps (schedule_of all.now)) }
    ensures runs { OnOk result (AreRuns runs.new.items) }
{
    let mut left = steps;
    for place in 0..all.len() {
        let (thread, count) = all[place];
        if left <= count {
            return add_last(runs, thread, left);
        }
        runs.push((thread, count))?;
        left -= count;
    }
    Ok(())
}
