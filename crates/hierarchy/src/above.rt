//! What stands above a class, as a set.

ghost use Rattle.std.specs.Prelude.{◌↔◌, IsTrue};
ghost use Rattle.std.specs.List.{Contains};
ghost use Rattle.hierarchy.specs.steps.Defaults.{classes_of};

use crate::ancestors::Ancestors;
use crate::class_set::ClassSet;
use crate::few_classes::FewClasses;

/// What stands above a class: found by an ascent, whose room was there, or else, with none from the heap, as a list
/// where it is few, or by flags.
#[derive(Clone, Copy)]
pub(crate) enum Above<'a> {
    Walked(&'a Ancestors),
    Few(&'a FewClasses),
    Flagged(&'a ClassSet),
}

impl Above<'_> {
    /// Whether a class is one of them.
    pub(crate) fn has(self, class: u32) -> bool
        ensures { IsTrue result ↔ Contains (classes_of self.entry) class }
    {
        match self {
            Above::Walked(ancestors) => ancestors.place(class).is_some(),
            Above::Few(few) => few.has(class),
            Above::Flagged(flagged) => flagged.has(class),
        }
    }
}
