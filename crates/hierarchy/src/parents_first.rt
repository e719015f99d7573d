//! The classes of a family, each after its parents, as they are gone through many times.

ghost use Rattle.std.specs.Prelude.{◌≡◌, ◌≤◌, ◌++◌, ◌∷◌, [], length, map, IfOk, OnOk};
ghost use Rattle.std.specs.List.{All};
ghost use Rattle.hierarchy.specs.steps.ParentSteps.{AreSteps, HasParents, between, class_of_step};

use loading::family::Family;
use loading::given::Superclass;
use std::alloc::{AllocError, Global};

/// A class, and where its parents stand: from one place up to another.
#[derive(Clone, Copy)]
pub(crate) struct ClassWithParents {
    pub(crate) class: u32,
    pub(crate) from: usize,
    pub(crate) to: usize,
}

/// The classes of a family, each after its parents. The parents of all stand in one list, so that a look at those of a
/// class takes no way through its class file.
pub(crate) struct ParentsFirst {
    pub(crate) steps: Vec<ClassWithParents>,
    pub(crate) parents: Vec<u32>,
}

// By hand, since a derived one is proved anew wherever one is let go.
impl Drop for ParentsFirst {
    fn drop(self) {
        let ParentsFirst {
            steps: _,
            parents: _,
        } = self;
    }
}

impl ParentsFirst {
    /// The classes of a family, parents first.
    pub(crate) fn of_family(alloc: Global, family: &Family) -> Result<Self, AllocError>
        ensures { IfOk result (λ order. AreSteps family.now order.steps.items order.parents.items) }
    {
        let mut order = ParentsFirst {
            steps: Vec::new(alloc),
            parents: Vec::new(alloc),
        };
        let classes = family.parents_first();
        for class in classes {
            order.add(family, *class)?;
        }
        Ok(order)
    }

    /// Adds a class.
    fn add(&mut self, family: &Family, class: u32) -> Result<(), AllocError>
        requires { All (HasParents family.now self.old.parents.items) self.old.steps.items }
        ensures parents { OnOk result (All (HasParents family.now self.new.parents.items) self.new.steps.items) }
        ensures classes { OnOk result (map class_of_step self.new.steps.items
            ≡ map class_of_step self.old.steps.items ++ class ∷ []) }
    {
        let from = self.parents.len();
        self.parents.extend_from_slice(family.interfaces(class))?;
        if let Some(Superclass::Given(above)) = family.superclass(class) {
            self.parents.push(above)?;
        }
        let to = self.parents.len();
        self.steps.push(ClassWithParents { class, from, to })?;
        Ok(())
    }

    /// The parents of a class.
    pub(crate) fn parents_of(&self, step: ClassWithParents) -> &[u32]
        requires up { step.from ≤ step.to }
        requires within { step.to ≤ length self.now.parents.items }
        ensures { result.now ≡ between step.from step.to self.now.parents.items }
    {
        &self.parents[step.from..step.to]
    }
}
