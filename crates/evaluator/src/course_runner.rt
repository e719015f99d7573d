//! Where an initializer that runs long does many instructions in a row: a state as threads share it, in which its class
//! alone may be used, and no object is held but those that the class made.

ghost use Rattle.std.specs.Prelude.{◌≡◌, ℕ, IfOk, OnOk};
ghost use Rattle.vm_state.specs.Shares.{shared_of};
ghost use Rattle.program.specs.Tables.{Tables};
ghost use Rattle.method_lowering.specs.steps.StepTables.{KeepsSteps};
ghost use Rattle.machine.specs.Linked.{program_of};
ghost use Rattle.region_shape.specs.Regions.{region_of};
ghost use Rattle.evaluator.specs.steps.Courses.{IsAlone, GoesAhead};

use crate::step::Initializer;
use courses::course::run_segment;
use machine::kinds::Actor;
use method_lowering::step_table::StepTable;
use region_shape::regions::Region;
use std::alloc::{AllocError, Global};
use std::mem;
use vm_state::classes::{Classes, Fields};
use vm_state::frame::Segment;
use vm_state::heap::{Heap, Pool};
use vm_state::shared::Shared;
use vm_state::value::Maker;

/// How many instructions, and one for each class with a lower number, are done one by one before the first in a row:
/// what a runner keeps goes by these numbers, and most initializers are short.
const FEW: u64 = 10_000;

/// The state, and the steps of the methods that ran often.
pub(crate) struct CourseRunner {
    pub(crate) table: StepTable,
    pub(crate) shared: Shared,
}

// By hand, since a derived one is written out wherever one is let go.
impl Drop for CourseRunner {
    fn drop(self) {
        let CourseRunner {
            table: _,
            shared: _,
        } = self;
    }
}

/// No static field and no object.
fn no_region(alloc: Global) -> Region {
    Region {
        fields: Fields::new(alloc),
        objects: Pool::new(alloc),
    }
}

impl CourseRunner {
    /// Nothing is kept yet. It takes no memory.
    pub(crate) fn new(alloc: Global) -> CourseRunner
        ensures steps { (P : Tables) → KeepsSteps P result.table }
        ensures alone { (class : ℕ) → IsAlone class result.shared }
    {
        CourseRunner {
            table: StepTable::new(alloc),
            shared: Shared::new(Classes::new(alloc), Heap::new(alloc)),
        }
    }

    /// Runs frames of an initializer that has done `done` instructions, as long as they touch no class but its own and
    /// make no array, and there were fewer than `most`. It answers how many there were.
    ///
    /// # Errors
    /// `AllocError` where memory is refused. The frames and the region are of no use then.
    #[tactic(auto, using(crate::proofs::CourseLemmas::stays_behind))]
    pub(crate) fn run(
        &mut self,
        alloc: Global,
        given: Initializer<'_>,
        own: &mut Region,
        segment: &mut Segment,
        done: u64,
        most: u64,
    ) -> Result<u64, AllocError>
        requires steps { KeepsSteps given.program.now self.old.table }
        requires alone { IsAlone given.class self.old.shared }
        ensures steps { OnOk result (KeepsSteps given.entry.program.now self.new.table) }
        ensures alone { OnOk result (IsAlone given.entry.class self.new.shared) }
        ensures ahead { IfOk result (λ count. GoesAhead (program_of given.entry.program.now) given.entry.class most
            count segment.old (region_of own.old) segment.new (region_of own.new)) }
    {
        let Initializer { program, class, .. } = given;
        if done < FEW + u64::from(class) {
            return Ok(0);
        }
        let Region { fields, objects } = mem::replace(own, no_region(alloc));
        self.shared.initialize(alloc, class, fields, objects)?;
        let by = Actor {
            thread: 0,
            maker: Maker::Class(class),
        };
        let count = run_segment(
            alloc,
            program,
            &mut self.table,
            by,
            segment,
            &mut self.shared,
            most,
        )?;
        let (fields, objects) = self.shared.take(alloc, class);
        *own = Region { fields, objects };
        Ok(count)
    }
}
