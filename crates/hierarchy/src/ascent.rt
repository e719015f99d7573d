//! Ascents of a family, depth first (JVMS 5.4.3.2, 5.5).

ghost use Rattle.std.specs.Prelude.{◌≡◌, ℕ, List, ◌<◌, ◌≤◌, [], ◌∷◌, ◌++◌, length, map, reverse, IfOk, OnOk};
ghost use Rattle.std.specs.List.{All};
ghost use Rattle.loading.specs.Families.{IsFamily, AreParentsWithin, parents_in};
ghost use Rattle.loading.specs.declared.given.GivenClass.{GivenClass};
ghost use Rattle.hierarchy.specs.Search.{firsts};
ghost use Rattle.hierarchy.specs.steps.Ascents.{HasRoomFor, KeepsRoom, Ascending, IsSearchOrder, IsPostorderOf};
ghost use Rattle.hierarchy.specs.steps.Ascents.{IsWithin, StepsWithin, class_of};

use graph::Visited;
use loading::family::Family;
use loading::given::Superclass;
use std::alloc::{AllocError, Global};

/// What an ascent does next.
#[derive(Clone, Copy)]
enum Visit {
    /// Goes to a class, and then to those above it.
    Enter(u32),
    /// Is done with a class and all above it.
    Leave(u32),
}

/// What stands above some classes of a family, found depth first. Its room is used again by the next ascent.
pub(crate) struct Ascent {
    /// What is to be done, the next at the end.
    todo: Vec<Visit>,
    entered: Visited,
    left: Visited,
}

// By hand, since a derived one is proved anew wherever one is let go.
impl Drop for Ascent {
    fn drop(self) {
        let Ascent {
            todo: _,
            entered: _,
            left: _,
        } = self;
    }
}

impl Ascent {
    /// An ascent that was nowhere, with room for `count` classes.
    pub(crate) fn new(alloc: Global, count: usize) -> Result<Ascent, AllocError>
        ensures entered { IfOk result (λ ascent. ascent.entered.limit ≡ count) }
        ensures left { IfOk result (λ ascent. ascent.left.limit ≡ count) }
        ensures empty { IfOk result (λ ascent. ascent.entered.items ≡ []) }
    {
        let entered = Visited::new(alloc, count)?;
        let left = Visited::new(alloc, count)?;
        Ok(Ascent {
            todo: Vec::new(alloc),
            entered,
            left,
        })
    }

    /// The classes in the order in which they were entered, each before those above it.
    pub(crate) fn entered(&self) -> &Visited
        ensures { result.now ≡ self.now.entered }
    {
        &self.entered
    }

    /// The classes in the order in which they were left, each after those above it.
    pub(crate) fn left(&self) -> &Visited
        ensures { result.now ≡ self.now.left }
    {
        &self.left
    }

    /// Goes up from some classes in order, from each to its direct superinterfaces in order and then to its superclass.
    pub(crate) fn above(&mut self, family: &Family, from: &[u32]) -> Result<(), AllocError>
        requires fits { IsFamily family.now }
        requires parents { AreParentsWithin family.now }
        requires room { HasRoomFor family.now self.old }
        requires from { All (λ c. c < length family.now) from.now }
        ensures room { KeepsRoom self.old self.new }
        ensures entered { OnOk result (IsSearchOrder family.now from.now self.new.entered.items) }
        ensures left { OnOk result (IsPostorderOf family.now from.now self.new.left.items) }
    {
        self.forget();
        plan(&mut self.todo, from)?;
        go_on(self, family)
    }

    /// Goes up from the parents of a class.
    pub(crate) fn above_class(&mut self, family: &Family, class: u32) -> Result<(), AllocError>
        requires fits { IsFamily family.now }
        requires parents { AreParentsWithin family.now }
        requires room { HasRoomFor family.now self.old }
        ensures room { KeepsRoom self.old self.new }
        ensures entered { OnOk result (IsSearchOrder family.now (parents_in family.now class) self.new.entered.items) }
        ensures left { OnOk result (IsPostorderOf family.now (parents_in family.now class) self.new.left.items) }
    {
        self.forget();
        plan_parents(&mut self.todo, family, class)?;
        go_on(self, family)
    }

    /// Adds those of some classes that are not among those it left, as if it left them now.
    pub(crate) fn leave_all(&mut self, classes: &[u32]) -> Result<(), AllocError>
        requires within { All (λ c. c < self.old.left.limit) classes.now }
        requires once { self.old.left.items ≡ firsts self.old.left.items }
        ensures entered { self.new.entered ≡ self.old.entered }
        ensures left_limit { self.new.left.limit ≡ self.old.left.limit }
        ensures left { OnOk result (self.new.left.items ≡ firsts (self.old.left.items ++ classes.now)) }
    {
        for class in classes {
            self.left.add(*class as usize)?;
        }
        Ok(())
    }

    /// As if it was nowhere, with the same room.
    pub(crate) fn forget(&mut self)
        ensures todo { self.new.todo.items ≡ [] }
        ensures entered { self.new.entered.items ≡ [] }
        ensures left { self.new.left.items ≡ [] }
        ensures room { KeepsRoom self.old self.new }
    {
        self.todo.clear();
        self.entered.clear();
        self.left.clear();
    }
}

/// Goes on until nothing is left to do.
fn go_on(ascent: &mut Ascent, family: &Family) -> Result<(), AllocError>
    requires parents { AreParentsWithin family.now }
    requires room { HasRoomFor family.now ascent.old }
    requires within { IsWithin family.now ascent.old }
    ensures room { KeepsRoom ascent.old ascent.new }
    ensures ascending { OnOk result ((from : List ℕ)
        → Ascending family.now from (reverse ascent.old.todo.items) ascent.old.entered.items ascent.old.left.items
        → Ascending family.now from [] ascent.new.entered.items ascent.new.left.items) }
{
    while let Some(visit) = ascent.todo.pop() {
        step(ascent, family, visit)?;
    }
    Ok(())
}

/// Does what came next.
fn step(ascent: &mut Ascent, family: &Family, visit: Visit) -> Result<(), AllocError>
    requires parents { AreParentsWithin family.now }
    requires room { HasRoomFor family.now ascent.old }
    requires visit { class_of visit < length family.now }
    requires within { IsWithin family.now ascent.old }
    ensures room { KeepsRoom ascent.old ascent.new }
    ensures steps { OnOk result (StepsWithin family.now ascent.old ascent.new) }
    ensures ascending { OnOk result ((from : List ℕ)
        → Ascending family.now from (visit ∷ reverse ascent.old.todo.items) ascent.old.entered.items
        ascent.old.left.items
        → Ascending family.now from (reverse ascent.new.todo.items) ascent.new.entered.items ascent.new.left.items) }
{
    match visit {
        Visit::Enter(class) => enter(ascent, family, class),
        Visit::Leave(class) => leave(ascent, class),
    }
}

/// Goes to a class, if it was not there.
fn enter(ascent: &mut Ascent, family: &Family, class: u32) -> Result<(), AllocError>
    requires parents { AreParentsWithin family.now }
    requires entered { length family.now ≤ ascent.old.entered.limit }
    requires class { class < length family.now }
    requires within { IsWithin family.now ascent.old }
    ensures room { KeepsRoom ascent.old ascent.new }
    ensures steps { OnOk result (StepsWithin family.now ascent.old ascent.new) }
    ensures ascending { OnOk result ((from : List ℕ)
        → Ascending family.now from (Visit.Enter class ∷ reverse ascent.old.todo.items) ascent.old.entered.items
        ascent.old.left.items
        → Ascending family.now from (reverse ascent.new.todo.items) ascent.new.entered.items ascent.new.left.items) }
{
    if !ascent.entered.add(class as usize)? {
        return Ok(());
    }
    ascent.todo.push(Visit::Leave(class))?;
    plan_parents(&mut ascent.todo, family, class)
}

/// Is done with a class.
fn leave(ascent: &mut Ascent, class: u32) -> Result<(), AllocError>
    requires class { class < ascent.old.left.limit }
    ensures entered { ascent.new.entered ≡ ascent.old.entered }
    ensures left { ascent.new.left.limit ≡ ascent.old.left.limit }
    ensures todo { ascent.new.todo.items ≡ ascent.old.todo.items }
    ensures ascending { OnOk result ((family : List GivenClass) → (from : List ℕ)
        → Ascending family from (Visit.Leave class ∷ reverse ascent.old.todo.items) ascent.old.entered.items
        ascent.old.left.items
        → Ascending family from (reverse ascent.new.todo.items) ascent.new.entered.items ascent.new.left.items) }
{
    ascent.left.add(class as usize)?;
    Ok(())
}

/// Plans to enter the parents of a class next.
fn plan_parents(todo: &mut Vec<Visit>, family: &Family, class: u32) -> Result<(), AllocError>
    ensures { OnOk result (reverse todo.new.items
        ≡ map Visit.Enter (parents_in family.now class) ++ reverse todo.old.items) }
{
    if let Some(Superclass::Given(superclass)) = family.superclass(class) {
        todo.push(Visit::Enter(superclass))?;
    }
    plan(todo, family.interfaces(class))
}

/// Plans to enter some classes next, the first of them first.
fn plan(todo: &mut Vec<Visit>, classes: &[u32]) -> Result<(), AllocError>
    ensures { OnOk result (reverse todo.new.items ≡ map Visit.Enter classes.now ++ reverse todo.old.items) }
{
    for index in (0..classes.len()).rev() {
        todo.push(Visit::Enter(classes[index]))?;
    }
    Ok(())
}
