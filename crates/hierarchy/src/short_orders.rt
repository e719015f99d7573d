//! Lists that interfaces keep, of what is initialized at and above them (JVMS 5.5, step 7).

ghost use Rattle.std.specs.Prelude.{◌≡◌, ℕ, List, Option, ◌<◌, ◌≤◌, ◌^◌, [], ◌∷◌, None, Some, true, length, replicate};
ghost use Rattle.std.specs.Prelude.{IfOk, OnOk};
ghost use Rattle.std.specs.List.{All};
ghost use Rattle.loading.specs.Families.{IsFamily, AreParentsWithin, interfaces_in, is_interface_in};
ghost use Rattle.hierarchy.specs.Search.{firsts};
ghost use Rattle.hierarchy.specs.steps.InterfaceOrders.{AreShort, Gathers, TellFirst};
ghost use Rattle.hierarchy.specs.steps.Ascents.{KeepsRoom};

use crate::ascent::Ascent;
use crate::initialized_first::add_flagged;
use loading::family::Family;
use loading::given::ClassNumbers;
use std::alloc::{AllocError, Global};

/// How long a list is that an interface keeps, at most.
const SHORT: usize = 256;

/// By interface: what is initialized first of it and those above it, where that is short.
#[derive(Drop)]
pub(crate) struct ShortOrders {
    pub(crate) rows: Vec<Option<ClassNumbers>>,
}

impl ShortOrders {
    /// The lists of a family's interfaces.
    pub(crate) fn new(
        alloc: Global,
        family: &Family,
        first: &[bool],
        ascent: &mut Ascent,
    ) -> Result<ShortOrders, AllocError>
        requires first { TellFirst family.now first.now }
        requires left { ascent.old.left.limit ≡ length family.now }
        ensures room { KeepsRoom ascent.old ascent.new }
        ensures short { IfOk result (λ short. AreShort family.now short.rows.items) }
    {
        let mut rows = no_lists(alloc, family.classes().len())?;
        fill(alloc, family, first, ascent, &mut rows)?;
        Ok(ShortOrders { rows })
    }
}

/// No list for each of `count` classes.
fn no_lists(alloc: Global, count: usize) -> Result<Vec<Option<ClassNumbers>>, AllocError>
    ensures { IfOk result (λ rows. rows.items ≡ replicate count None) }
{
    let mut rows = Vec::with_capacity(alloc, count)?;
    for _ in 0..count {
        rows.push(None)?;
    }
    Ok(rows)
}

/// Gives each interface its list.
fn fill(
    alloc: Global,
    family: &Family,
    first: &[bool],
    ascent: &mut Ascent,
    rows: &mut Vec<Option<ClassNumbers>>,
) -> Result<(), AllocError>
    requires fits { IsFamily family.now }
    requires parents { AreParentsWithin family.now }
    requires few { length family.now ≤ 2 ^ 32 }
    requires first { TellFirst family.now first.now }
    requires left { ascent.old.left.limit ≡ length family.now }
    requires short { AreShort family.now rows.old.items }
    ensures room { KeepsRoom ascent.old ascent.new }
    ensures short { OnOk result (AreShort family.now rows.new.items) }
{
    for class in family.parents_first() {
        if family.is_interface(*class) {
            let row = list_of(alloc, family, *class, first, rows.as_slice(), ascent)?;
            rows[*class as usize] = row;
        }
    }
    Ok(())
}

/// The list of an interface, if it is short.
fn list_of(
    alloc: Global,
    family: &Family,
    class: u32,
    first: &[bool],
    rows: &[Option<ClassNumbers>],
    ascent: &mut Ascent,
) -> Result<Option<ClassNumbers>, AllocError>
    requires fits { IsFamily family.now }
    requires parents { AreParentsWithin family.now }
    requires few { length family.now ≤ 2 ^ 32 }
    requires class { class < length family.now }
    requires interface { is_interface_in family.now class ≡ true }
    requires first { TellFirst family.now first.now }
    requires left { ascent.old.left.limit ≡ length family.now }
    requires short { AreShort family.now rows.now }
    ensures room { KeepsRoom ascent.old ascent.new }
    ensures gathered { IfOk result (λ row. (list : List ℕ) → row ≡ Some list
        → Gathers family.now (class ∷ []) list) }
    ensures within { IfOk result (λ row. (list : List ℕ) → row ≡ Some list
        → All (λ c. c < length family.now) list) }
{
    if !gather(family, class, rows, ascent)? {
        return Ok(None);
    }
    if first[class as usize] {
        ascent.leave_all(&[class])?;
    }
    if ascent.left().len() > SHORT {
        return Ok(None);
    }
    let mut list = Vec::new(alloc);
    add_flagged(ascent.left(), first, &mut list)?;
    Ok(Some(ClassNumbers::new(list)))
}

/// Has an ascent leave what is initialized of the direct superinterfaces of a class and those above them, from the
/// lists
/// that they keep. False where one of them keeps none.
pub(crate) fn gather(
    family: &Family,
    class: u32,
    rows: &[Option<ClassNumbers>],
    ascent: &mut Ascent,
) -> Result<bool, AllocError>
    requires parents { AreParentsWithin family.now }
    requires left { ascent.old.left.limit ≡ length family.now }
    requires short { AreShort family.now rows.now }
    ensures room { KeepsRoom ascent.old ascent.new }
    ensures once { IfOk result (λ whole. whole ≡ true → ascent.new.left.items ≡ firsts ascent.new.left.items) }
    ensures gathered { IfOk result (λ whole. whole ≡ true
        → Gathers family.now (interfaces_in family.now class) ascent.new.left.items) }
{
    ascent.forget();
    for interface in family.interfaces(class) {
        let Some(list) = &rows[*interface as usize] else {
            return Ok(false);
        };
        ascent.leave_all(list.as_slice())?;
    }
    Ok(true)
}
