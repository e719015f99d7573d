//! What is known before the first wave.

ghost use Rattle.std.specs.Prelude.{◌≡◌, length, IfOk};
ghost use Rattle.use_graph.specs.steps.Bodies.{IsUseGraph};
ghost use Rattle.wave_scheduler.specs.Outcomes.{settled_of, AreJudged};
ghost use Rattle.wave_scheduler.specs.steps.Waves.{StartsFrom};
ghost use Rattle.wave_scheduler.specs.steps.Plans.{GivesFirst, IsPlan};

use crate::outcome::Settled;
use crate::refused::give_first_refused;
use crate::starting::start;
use crate::tainted::Tainted;
use crate::wave_classes::classes_by_wave;
use initializer_analysis::verdict::Verdict;
use program::Program;
use std::alloc::{AllocError, Global};
use use_graph::UseGraph;

/// What the waves of a program go by, and all classes as their verdicts say.
pub(crate) struct Plan {
    pub uses: UseGraph,
    /// The classes of each wave.
    pub waves: Vec<Vec<u32>>,
    pub tainted: Tainted,
    pub settled: Settled,
}

// By hand, since a derived one is proved anew wherever one is let go.
impl Drop for Plan {
    fn drop(self) {
        let Plan {
            uses: _,
            waves: _,
            tainted: _,
            settled: _,
        } = self;
    }
}

impl Plan {
    /// The outcomes of all classes, once all waves are tried: each class that depends on refused ones has the first
    /// such as its reason.
    pub(crate) fn into_settled(
        self,
        alloc: Global,
        program: &Program,
    ) -> Result<Settled, AllocError>
        requires uses { IsUseGraph program.now self.uses }
        requires count { length self.settled.verdicts ≡ length program.now.classes }
        ensures { IfOk result (λ settled. GivesFirst program.now (settled_of self.settled) (settled_of settled)) }
    {
        let Plan {
            uses,
            waves: _,
            tainted: _,
            settled,
        } = self;
        let mut settled = settled;
        match give_first_refused(alloc, program, &uses, &mut settled) {
            Ok(()) => Ok(settled),
            Err(error) => Err(error),
        }
    }
}

/// The plan of a program, from its verdicts.
pub(crate) fn plan_of(
    alloc: Global,
    program: &Program,
    verdicts: &[Verdict],
) -> Result<Plan, AllocError>
    requires { AreJudged program.now verdicts.now }
    ensures { IfOk result (IsPlan program.now verdicts.now) }
{
    let uses = UseGraph::of_program(alloc, program)?;
    match start(alloc, verdicts) {
        Ok(settled) => plan_from(alloc, program, verdicts, uses, settled),
        Err(error) => Err(error),
    }
}

/// The plan of a program with these uses, whose classes are as their verdicts say.
fn plan_from(
    alloc: Global,
    program: &Program,
    verdicts: &[Verdict],
    uses: UseGraph,
    settled: Settled,
) -> Result<Plan, AllocError>
    requires judged { AreJudged program.now verdicts.now }
    requires uses { IsUseGraph program.now uses }
    requires starts { StartsFrom verdicts.now (settled_of settled) }
    ensures { IfOk result (IsPlan program.now verdicts.now) }
{
    let waves = classes_by_wave(alloc, verdicts, program.given_count())?;
    match Tainted::of(alloc, program, &uses, &settled) {
        Ok(tainted) => Ok(Plan {
            uses,
            waves,
            tainted,
            settled,
        }),
        Err(error) => Err(error),
    }
}
