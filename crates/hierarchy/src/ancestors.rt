//! What stands above a class (JVMS 5.4.3.2 to 5.4.3.4).

ghost use Rattle.std.specs.Prelude.{◌≡◌, ◌≤◌, ◌↔◌, None, Some, length, IsTrue, IfOk, OnOk, MatchOption};
ghost use Rattle.std.specs.Prelude.{slice_get, slice_index_or};
ghost use Rattle.std.specs.List.{Contains};
ghost use Rattle.loading.specs.Families.{parents_in};
ghost use Rattle.hierarchy.specs.steps.Ancestors.{AreOf, HasRoom};
ghost use Rattle.hierarchy.specs.steps.DepthFirst.{ArePlaces};
ghost use Rattle.hierarchy.specs.steps.Ascents.{IsSearchOrder};

use crate::ascent::Ascent;
use crate::member::DeclaredMember;
use graph::Visited;
use loading::family::Family;
use std::alloc::{AllocError, Global};
use std::marker::Model;

/// All above a class: its superinterfaces, its superclass and what stands above these, each once, in the order in which
/// searches come to them. They are kept until those of another class are asked for.
pub(crate) struct Ancestors {
    alloc: Global,
    /// The class that they were found of.
    class: Option<u32>,
    ascent: Ascent,
    /// By class: where it stands among them, if it is one of them.
    places: Vec<u32>,
}

// By hand, since a derived one is proved anew wherever one is let go.
impl Drop for Ancestors {
    fn drop(self) {
        let Ancestors {
            alloc: _,
            class: _,
            ascent: _,
            places: _,
        } = self;
    }
}

/// A member of one of them, and where its class stands among them, counted from 0.
#[derive(Clone, Copy)]
pub(crate) struct PlacedMember {
    pub(crate) place: u32,
    pub(crate) member: DeclaredMember,
}

impl Model for Ancestors {
    ghost use Rattle.std.specs.Prelude.{◌≡◌, length};
    ghost use Rattle.hierarchy.specs.steps.Ancestors.{AncestorList, HasRoom};

    ghost Value = { AncestorList };

    ghost view = { λ s. record { class = s.class; items = s.ascent.entered.items } };

    ghost invariant = { λ s. HasRoom s.ascent s.places.items };
}

impl Ancestors {
    /// The ancestors of no class yet. Room is taken when the first are looked for: most programs never do.
    ///
    /// # Errors
    /// Where memory runs out.
    pub(crate) fn new(alloc: Global) -> Result<Ancestors, AllocError>
        ensures { IfOk result (λ ancestors. ancestors.class ≡ None) }
    {
        let ascent = Ascent::new(alloc, 0)?;
        Ok(Ancestors {
            alloc,
            class: None,
            ascent,
            places: Vec::new(alloc),
        })
    }

    /// Finds those of a class, if they are not those that were found last. A number of no class has none.
    ///
    /// # Errors
    /// Where memory runs out.
    pub(crate) fn find(&mut self, family: &Family, class: u32) -> Result<(), AllocError>
        requires { AreOf family.now self.old }
        ensures known { AreOf family.now self.new }
        ensures order { OnOk result (IsSearchOrder family.now (parents_in family.now class) self.new.items) }
    {
        if self.is_of(class) {
            return Ok(());
        }
        self.class = None;
        self.ascend_from(family, class)?;
        self.class = Some(class);
        Ok(())
    }

    /// Whether they are those of a class.
    fn is_of(&self, class: u32) -> bool
        ensures { IsTrue result ↔ (self.now.class ≡ Some class) }
    {
        match self.class {
            Some(known) => known == class,
            None => false,
        }
    }

    /// Finds those of a class by an ascent.
    fn ascend_from(&mut self, family: &Family, class: u32) -> Result<(), AllocError>
        requires { self.old.class ≡ None }
        ensures class { self.new.class ≡ None }
        ensures order { OnOk result (IsSearchOrder family.now (parents_in family.now class) self.new.items) }
    {
        let count = family.classes().len();
        if class as usize >= count {
            self.ascent.forget();
            return Ok(());
        }
        make_room(self.alloc, count, &mut self.ascent, &mut self.places)?;
        match self.ascent.above_class(family, class) {
            Ok(()) => {
                note_places(self.ascent.entered(), &mut self.places);
                Ok(())
            }
            Err(error) => {
                self.ascent.forget();
                Err(error)
            }
        }
    }

    /// Where a class stands among them, counted from 0.
    pub(crate) fn place(&self, class: u32) -> Option<u32>
        ensures { MatchOption result (¬ Contains self.now.items class)
            (λ place. slice_get self.now.items place ≡ Some class) }
    {
        if self.ascent.entered().has(class as usize) {
            Some(place_in(&self.places, class))
        } else {
            None
        }
    }
}

/// The place that was noted for a class.
fn place_in(places: &[u32], class: u32) -> u32
    ensures { result ≡ slice_index_or places.now class 0 }
{
    places.get(class as usize).copied().unwrap_or(0)
}

/// Makes room for `count` classes, if there is less.
fn make_room(
    alloc: Global,
    count: usize,
    ascent: &mut Ascent,
    places: &mut Vec<u32>,
) -> Result<(), AllocError>
    requires few { count ≤ 65535 }
    requires room { HasRoom ascent.old places.old.items }
    ensures room { HasRoom ascent.new places.new.items }
    ensures enough { OnOk result (count ≤ length places.new.items) }
{
    if count <= places.len() {
        return Ok(());
    }
    let wider = vec![in alloc; 0; count]?;
    *ascent = Ascent::new(alloc, count)?;
    *places = wider;
    Ok(())
}

/// Notes where each class stands in a list.
fn note_places(classes: &Visited, places: &mut Vec<u32>)
    requires limit { classes.now.limit ≡ length places.old.items }
    requires few { length places.old.items ≤ 65535 }
    ensures len { length places.new.items ≡ length places.old.items }
    ensures places { ArePlaces classes.now.items places.new.items }
{
    for place in 0..classes.len() {
        places[classes.at(place)] = place as u32;
    }
}
