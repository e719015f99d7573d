//! A set of classes that takes no memory from the heap.

ghost use Rattle.std.specs.Prelude.{◌≡◌, ℕ, ◌<◌, ◌≤◌, ◌↔◌, [], length, IsTrue};
ghost use Rattle.std.specs.List.{All, Contains};
ghost use Rattle.graph.specs.Seen.{Joins};
ghost use Rattle.graph.specs.steps.Adds.{Adds};
ghost use Rattle.loading.specs.Families.{IsAncestor, IsFamily, parents_in};
ghost use Rattle.hierarchy.specs.steps.Above.{IsAmongOrAbove};

use loading::family::Family;
use loading::given::Superclass;
use std::marker::Model;

/// Classes of a family in the order in which they came, each once. A family has fewer classes than there are flags.
#[derive(Drop)]
pub(crate) struct ClassSet {
    /// By number: whether the class is a member.
    flags: [bool; 65_536],
    members: [u16; 65_536],
    count: usize,
}

impl Model for ClassSet {
    ghost use Rattle.std.specs.Prelude.{List, ℕ, take};
    ghost use Rattle.hierarchy.specs.steps.Flagged.{IsFlagged};

    ghost Value = { List ℕ };

    ghost view = { λ s. take s.count s.members };

    ghost invariant = { λ s. IsFlagged s.flags s.members s.count };
}

impl ClassSet {
    /// No classes.
    pub(crate) fn none() -> ClassSet
        ensures { result ≡ [] }
    {
        ClassSet {
            flags: [false; 65_536],
            members: [0; 65_536],
            count: 0,
        }
    }

    /// All ancestors of a class.
    pub(crate) fn ancestors(family: &Family, class: u32) -> ClassSet
        ensures members { (m : ℕ) → Contains result m ↔ IsAncestor family.now class m }
        ensures fits { IsFamily family.now }
    {
        let mut flagged = ClassSet::none();
        flagged.add_parents(family, class);
        flagged.add_above(family);
        flagged
    }

    /// The members.
    pub(crate) fn members(&self) -> &[u16]
        ensures value { result.now ≡ self.now }
        ensures few { length self.now ≤ 65536 }
    {
        &self.members[..self.count]
    }

    /// Whether a class is a member.
    pub(crate) fn has(&self, class: u32) -> bool
        ensures { IsTrue result ↔ Contains self.now class }
    {
        match self.flags.get(class as usize) {
            Some(flag) => *flag,
            None => false,
        }
    }

    /// Adds a class, and says whether it is new.
    pub(crate) fn add(&mut self, class: u32) -> bool
        requires { class < 65536 }
        ensures { Joins result self.old class self.new }
    {
        if self.flags[class as usize] {
            return false;
        }
        self.members[self.count] = class as u16;
        self.count += 1;
        self.flags[class as usize] = true;
        true
    }

    /// Adds some classes.
    pub(crate) fn add_all(&mut self, classes: &[u32])
        requires { All (λ c. c < 65536) classes.now }
        ensures { Adds self.old classes.now self.new }
    {
        for class in classes {
            self.add(*class);
        }
    }

    /// Adds the given parents of a class.
    pub(crate) fn add_parents(&mut self, family: &Family, class: u32)
        ensures adds { Adds self.old (parents_in family.now class) self.new }
        ensures fits { IsFamily family.now }
    {
        let count = family.classes().len();
        prove!(count < 65_536);
        self.add_all(family.interfaces(class));
        if let Some(Superclass::Given(above)) = family.superclass(class) {
            self.add(above);
        }
    }

    /// Adds all ancestors of the members.
    pub(crate) fn add_above(&mut self, family: &Family)
        ensures { (m : ℕ) → Contains self.new m ↔ IsAmongOrAbove family.now self.old m }
    {
        let mut next = 0;
        while next < self.members().len() {
            let class = u32::from(self.members()[next]);
            self.add_parents(family, class);
            next += 1;
        }
    }
}
