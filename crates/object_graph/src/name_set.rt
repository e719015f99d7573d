//! Names of objects, each once.

ghost use Rattle.std.specs.Prelude.{◌≡◌, length};
ghost use Rattle.object_graph.specs.Names.{AreDistinct};

use std::marker::Model;

/// The name of an object of an image: the class during whose initialization it was made, and its number there.
#[derive(Clone, Copy, Debug)]
pub struct ObjectName {
    pub class: u32,
    pub number: u64,
}

/// Names of objects, each once.
#[derive(Drop)]
pub struct NameSet {
    names: Vec<ObjectName>,
}

impl Model for NameSet {
    ghost use Rattle.std.specs.Prelude.{List};
    ghost use Rattle.object_graph.specs.declared.name_set.ObjectName.{ObjectName};
    ghost use Rattle.object_graph.specs.Names.{AreDistinct as HasDistinct};

    ghost Value = { List ObjectName };

    ghost view = { λ s. s.names.items };

    ghost invariant = { λ s. HasDistinct s.names.items };
}

impl NameSet {
    /// These names, none of which is listed twice.
    pub(crate) fn of_distinct(names: Vec<ObjectName>) -> NameSet
        requires { AreDistinct names.items }
        ensures { result ≡ names.items }
    {
        NameSet { names }
    }

    /// How many names it has.
    pub fn len(&self) -> usize
        ensures value { result ≡ length self.now }
        ensures distinct { AreDistinct self.now }
    {
        self.names.len()
    }

    /// The names, by class, those of a class in the order of their numbers.
    pub fn names(&self) -> &[ObjectName]
        ensures { result.now ≡ self.now }
    {
        self.names.as_slice()
    }
}
