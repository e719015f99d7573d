//! Classes in an order in which those below a class stand together, right behind it.

ghost use Rattle.std.specs.Prelude.{◌≡◌, ℕ, ◌<◌, ◌≤◌, ◌∷◌, ◌++◌, [], Some, None, List, length, IfOk, OnOk, suc, pred};
ghost use Rattle.std.specs.Prelude.{slice_get, option_to_list};
ghost use Rattle.std.specs.List.{All, Contains};
ghost use Rattle.loading.specs.Families.{superclasses_in};
ghost use Rattle.hierarchy.specs.steps.DepthFirst.{IsRow, put_behind, Holds, IsWholeOrder, ArePlaces};

use graph::Visited;
use loading::family::Family;
use loading::given::Superclass;
use std::alloc::{AllocError, Global};

/// Classes in an order: which is the first, and by class which stands behind it.
struct LinkedOrder {
    first: Option<u32>,
    behind: Vec<Option<u32>>,
}

// By hand, since a derived one is proved anew wherever one is let go.
impl Drop for LinkedOrder {
    fn drop(self) {
        let LinkedOrder {
            first: _,
            behind: _,
        } = self;
    }
}

impl LinkedOrder {
    /// The class behind a class, or none behind the last, if there is a class of this number.
    fn after(&self, class: u32) -> Option<Option<u32>>
        ensures { result ≡ slice_get self.now.behind.items class }
    {
        self.behind.get(class as usize).copied()
    }

    /// Puts a class before all others.
    fn put_first(&mut self, class: u32)
        requires { class < length self.old.behind.items }
        ensures len { length self.new.behind.items ≡ length self.old.behind.items }
        ensures row { (cs : List ℕ) → IsRow self.old.behind.items self.old.first cs → ¬ Contains cs class
            → IsRow self.new.behind.items self.new.first (class ∷ cs) }
    {
        self.behind[class as usize] = self.first;
        self.first = Some(class);
    }

    /// Puts a class right behind another one.
    fn put_behind(&mut self, above: u32, class: u32)
        requires above { above < length self.old.behind.items }
        requires class { class < length self.old.behind.items }
        ensures len { length self.new.behind.items ≡ length self.old.behind.items }
        ensures row { (cs : List ℕ) → IsRow self.old.behind.items self.old.first cs → ¬ Contains cs class
            → IsRow self.new.behind.items self.new.first (put_behind above class cs) }
    {
        let after = self.behind[above as usize];
        self.behind[class as usize] = after;
        self.behind[above as usize] = Some(class);
    }
}

/// The superclass of a class, if it is a given one.
pub(crate) fn given_superclass(family: &Family, class: u32) -> Option<u32>
    ensures value { superclasses_in family.now class ≡ option_to_list result }
    ensures within { (d : ℕ) → result ≡ Some d → d < length family.now }
{
    match family.superclass(class) {
        Some(Superclass::Given(above)) => Some(above),
        Some(Superclass::BuiltIn(_)) | None => None,
    }
}

/// Puts a class behind its superclass, or first if that is not given, unless it is there.
fn put(
    family: &Family,
    class: u32,
    placed: &mut Visited,
    row: &mut LinkedOrder,
) -> Result<(), AllocError>
    requires class { class < length family.now }
    requires limit { placed.old.limit ≡ length family.now }
    requires len { length row.old.behind.items ≡ length family.now }
    requires above { All (Contains placed.old.items) (superclasses_in family.now class) }
    ensures limit { placed.new.limit ≡ placed.old.limit }
    ensures len { length row.new.behind.items ≡ length row.old.behind.items }
    ensures placed { OnOk result (Contains placed.new.items class) }
    ensures kept { OnOk result ((c : ℕ) → Contains placed.old.items c → Contains placed.new.items c) }
    ensures holds { OnOk result (Holds family.now placed.old.items row.old.first row.old.behind.items
        → Holds family.now placed.new.items row.new.first row.new.behind.items) }
{
    if placed.add(class as usize)? {
        link(family, class, row);
    }
    Ok(())
}

/// Puts a class behind its superclass, or first if that is not given.
fn link(family: &Family, class: u32, row: &mut LinkedOrder)
    requires class { class < length family.now }
    requires len { length row.old.behind.items ≡ length family.now }
    ensures len { length row.new.behind.items ≡ length row.old.behind.items }
    ensures holds { (placed : List ℕ) → ¬ Contains placed class
        → All (Contains placed) (superclasses_in family.now class)
        → Holds family.now placed row.old.first row.old.behind.items
        → Holds family.now (placed ++ class ∷ []) row.new.first row.new.behind.items }
{
    match given_superclass(family, class) {
        Some(above) => row.put_behind(above, class),
        None => row.put_first(class),
    }
}

/// Puts each class of a family into a row.
fn put_all(family: &Family, placed: &mut Visited, row: &mut LinkedOrder) -> Result<(), AllocError>
    requires limit { placed.old.limit ≡ length family.now }
    requires len { length row.old.behind.items ≡ length family.now }
    requires holds { Holds family.now placed.old.items row.old.first row.old.behind.items }
    requires none { placed.old.items ≡ [] }
    ensures limit { placed.new.limit ≡ placed.old.limit }
    ensures len { length row.new.behind.items ≡ length row.old.behind.items }
    ensures whole { OnOk result ((c : ℕ) → c < length family.now → Contains placed.new.items c) }
    ensures holds { OnOk result (Holds family.now placed.new.items row.new.first row.new.behind.items) }
{
    let order = family.parents_first();
    for class in order {
        put(family, *class, placed, row)?;
    }
    Ok(())
}

/// The classes of a row.
fn classes_of(alloc: Global, row: &LinkedOrder) -> Result<Vec<u32>, AllocError>
    ensures { IfOk result (λ classes. (cs : List ℕ) → IsRow row.now.behind.items row.now.first cs
        → length cs ≤ length row.now.behind.items → classes.items ≡ cs) }
{
    let mut classes = Vec::with_capacity(alloc, row.behind.len())?;
    add_classes(row, &mut classes)?;
    Ok(classes)
}

/// Adds the classes of a row.
fn add_classes(row: &LinkedOrder, classes: &mut Vec<u32>) -> Result<(), AllocError>
    requires { classes.old.items ≡ [] }
    ensures { OnOk result ((cs : List ℕ) → IsRow row.now.behind.items row.now.first cs
        → length cs ≤ length row.now.behind.items → classes.new.items ≡ cs) }
{
    let mut at = row.first;
    for _ in 0..row.behind.len() {
        at = add_class(row, at, classes)?;
    }
    Ok(())
}

/// Adds a class of a row, if there is one, and answers the one behind it.
fn add_class(
    row: &LinkedOrder,
    at: Option<u32>,
    classes: &mut Vec<u32>,
) -> Result<Option<u32>, AllocError>
    ensures { IfOk result (λ after. (cs : List ℕ) → IsRow row.now.behind.items at cs
        → (rest : List ℕ) × IsRow row.now.behind.items after rest
        × (classes.new.items ++ rest ≡ classes.old.items ++ cs)
        × (length cs ≤ suc (length rest)) × (length rest ≤ pred (length cs))) }
{
    let Some(class) = at else {
        return Ok(None);
    };
    match row.after(class) {
        Some(after) => {
            classes.push(class)?;
            Ok(after)
        }
        None => Ok(None),
    }
}

/// All classes of a family, depth first along superclasses.
pub(crate) fn depth_first(alloc: Global, family: &Family) -> Result<Vec<u32>, AllocError>
    ensures { IfOk result (λ order. IsWholeOrder family.now order.items) }
{
    let count = family.classes().len();
    let mut row = LinkedOrder {
        first: None,
        behind: vec![in alloc; None; count]?,
    };
    let mut placed = Visited::new(alloc, count)?;
    put_all(family, &mut placed, &mut row)?;
    let _placed = placed.len();
    let order = classes_of(alloc, &row)?;
    Ok(order)
}

/// By class: where it stands in an order of all of them.
pub(crate) fn places_in(
    alloc: Global,
    order: &[u32],
    count: usize,
) -> Result<Vec<usize>, AllocError>
    requires { All (λ c. c < count) order.now }
    ensures len { IfOk result (λ places. length places.items ≡ count) }
    ensures places { IfOk result (λ places. ArePlaces order.now places.items) }
{
    let mut places = vec![in alloc; 0; count]?;
    for (place, class) in order.iter().enumerate() {
        places[*class as usize] = place;
    }
    Ok(places)
}
