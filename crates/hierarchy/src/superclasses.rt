//! The superclasses of a class (JVMS 4.1, super_class).

ghost use Rattle.std.specs.Iterator.{YieldsFirst, item_count};
ghost use Rattle.hierarchy.specs.Initialization.{AreSuperclasses};

use crate::hierarchy::Hierarchy;
use loading::given::{GivenClass, Superclass};
use std::marker::Model;

/// The given superclasses of a class that are still to come, the nearest first.
#[derive(Drop)]
pub struct Superclasses<'a> {
    classes: &'a [GivenClass],
    class: u32,
}

impl<'a> Model for Superclasses<'a> {
    ghost use Rattle.std.specs.Prelude.{List, ℕ};
    ghost use Rattle.loading.specs.Families.{IsFamily, AreParentsWithin};
    ghost use Rattle.hierarchy.specs.Initialization.{given_superclasses};

    ghost Value = { List ℕ };

    ghost view = { λ s. given_superclasses s.classes.now s.class };

    ghost invariant = { λ s. IsFamily s.classes.now × AreParentsWithin s.classes.now };
}

impl Iterator for Superclasses<'_> {
    type Item = u32;

    ghost next_gives = { YieldsFirst (λ s. s) };

    ghost remaining = { item_count (λ s. s) };

    fn next(&mut self) -> Option<u32> {
        let class = self.classes.get(self.class as usize)?;
        match class.superclass {
            Superclass::Given(superclass) => {
                self.class = superclass;
                Some(superclass)
            }
            Superclass::BuiltIn(_) => None,
        }
    }
}

impl Hierarchy {
    /// The given superclasses of a class, the nearest first. None for a number of no class.
    pub fn supers(&self, class: u32) -> Superclasses<'_>
        ensures { AreSuperclasses self.now.family class result }
    {
        Superclasses {
            classes: self.family().classes(),
            class,
        }
    }
}
